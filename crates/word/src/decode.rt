// A word's class, and the fields of a word by its class.
ghost use Rattle.std.specs.Prelude.{◌≡◌};
ghost use Rattle.word.specs.Operands.{clear_of, which_of, height_of, multiply_slot, multiply_of, legacy_of, set_counters_of, add_counters_of, zero_src_of, shift_a_of, shift_b_of, operation_of, scalar_of, operands_of};

use crate::{
    AddCounters, AddCountersWord, Class, Height, Legacy, LegacyWord, Multiply, MultiplyWord,
    Operands, Operation, Scalar, ScalarWord, SetCounters, SetCountersWord, ShiftAWord, ShiftB,
    ShiftBWord, Which, ZeroSrc, ZeroSrcWord,
};
use cells::ByFile;

fn clear_of(w: u32) -> ByFile<bool>
    ensures { result ≡ clear_of w }
{
    ByFile {
        a: (w >> 22) % 2 == 1,
        b: (w >> 23) % 2 == 1,
    }
}

fn which_of(w: u32) -> Which
    ensures { result ≡ which_of w }
{
    Which {
        a: w % 2 == 1,
        b: (w >> 1) % 2 == 1,
        dst: (w >> 2) % 2 == 1,
        phase: (w >> 3) % 2 == 1,
    }
}

fn height_of(w: u32) -> Height
    ensures { result ≡ height_of w }
{
    if (w >> 24) % 256 == 0x34 {
        return Height::Four;
    }
    Height::Eight
}

fn operation_of(w: u32) -> Operation
    ensures { result ≡ operation_of w }
{
    if (w >> 24) % 256 == 0x5B {
        return Operation::Bitwise;
    }
    if (w >> 24) % 256 == 0x5C {
        return Operation::Shift;
    }
    Operation::Compare
}

fn multiply_slot(height: Height, w: u32) -> u32
    ensures { result ≡ multiply_slot height w }
{
    match height {
        Height::Eight => (w >> 14) % 4,
        Height::Four => (w >> 15) % 4,
    }
}

impl MultiplyWord {
    pub fn fields(self) -> Multiply
        ensures { result ≡ multiply_of self }
    {
        let w = self.0;
        let height = height_of(w);
        let clear = clear_of(w);
        Multiply {
            height,
            clear,
            mode: (w >> 19) % 8,
            slot: multiply_slot(height, w),
            dst: w % 16384,
        }
    }
}

impl LegacyWord {
    pub fn fields(self) -> Legacy
        ensures { result ≡ legacy_of self }
    {
        let w = self.0;
        let clear = clear_of(w);
        Legacy {
            clear,
            slot: (w >> 14) % 4,
        }
    }
}

impl SetCountersWord {
    pub fn fields(self) -> SetCounters
        ensures { result ≡ set_counters_of self }
    {
        let w = self.0;
        let clear = clear_of(w);
        let which = which_of(w);
        SetCounters {
            clear,
            mode: (w >> 18) % 16,
            d: (w >> 14) % 16,
            b: (w >> 10) % 16,
            a: (w >> 6) % 16,
            which,
        }
    }
}

impl AddCountersWord {
    pub fn fields(self) -> AddCounters
        ensures { result ≡ add_counters_of self }
    {
        let w = self.0;
        AddCounters {
            mode: (w >> 18) % 64,
            d: (w >> 14) % 16,
            b: (w >> 10) % 16,
            a: (w >> 6) % 16,
        }
    }
}

impl ZeroSrcWord {
    pub fn fields(self) -> ZeroSrc
        ensures { result ≡ zero_src_of self }
    {
        let w = self.0;
        ZeroSrc {
            value: (w >> 4) % 1048576,
            write: (w >> 3) % 2 == 1,
            both: (w >> 2) % 2 == 1,
            b: (w >> 1) % 2 == 1,
            a: w % 2 == 1,
        }
    }
}

impl ShiftAWord {
    pub fn mode(self) -> u32
        ensures { result ≡ shift_a_of self }
    {
        self.0 % 4
    }
}

impl ShiftBWord {
    pub fn fields(self) -> ShiftB
        ensures { result ≡ shift_b_of self }
    {
        let w = self.0;
        ShiftB {
            slot: (w >> 14) % 4,
            zero: (w >> 10) % 2 == 1,
            row: w % 1024,
        }
    }
}

impl ScalarWord {
    pub fn fields(self) -> Scalar
        ensures { result ≡ scalar_of self }
    {
        let w = self.0;
        let op = operation_of(w);
        Scalar {
            op,
            constant: (w >> 23) % 2 == 1,
            mode: (w >> 18) % 8,
            result: ((w >> 12) % 64) as u8,
            b: ((w >> 6) % 64) as u8,
            a: (w % 64) as u8,
        }
    }
}

pub(crate) fn operands_of(class: Class, w: u32) -> Operands
    ensures { result ≡ operands_of class w }
{
    match class {
        Class::Multiply => Operands::Multiply(MultiplyWord(w)),
        Class::Legacy => Operands::Legacy(LegacyWord(w)),
        Class::SetCounters => Operands::SetCounters(SetCountersWord(w)),
        Class::AddCounters => Operands::AddCounters(AddCountersWord(w)),
        Class::ZeroSrc => Operands::ZeroSrc(ZeroSrcWord(w)),
        Class::ShiftA => Operands::ShiftA(ShiftAWord(w)),
        Class::ShiftB => Operands::ShiftB(ShiftBWord(w)),
        Class::NoEffect => Operands::NoEffect,
        Class::Scalar => Operands::Scalar(ScalarWord(w)),
    }
}
