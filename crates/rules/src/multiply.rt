// MVMUL, DOTPV, GAPOOL: all but the numbers.
ghost use Rattle.std.specs.Prelude.{◌≡◌, ℕ, ◌+◌, leb};
ghost use Rattle.cells.specs.Places.{row_count};
ghost use Rattle.word.specs.declared.Operands.TheVariants as operands;
ghost use Rattle.control.specs.Record.{width_of};
ghost use Rattle.control.specs.Halves.{Choice, joined};
ghost use Rattle.rules.specs.Multiply.{height_rows, multiply_modes, modelled, counted_a, counted_b, height_mask, counted_dst, counted_phase};
ghost use Rattle.rules.specs.Access.{reads_of};
ghost use Rattle.rules.specs.Rules.{operand_rules, lowest, verdict_answer, lowest_answer};

use crate::{Reads, vocabulary};
use cells::Span;
use control::{Core, Own, Settings};
use word::{Height, MultiplyWord, Refusal};

pub fn height_rows(height: Height) -> u32
    ensures { result ≡ height_rows height }
{
    match height {
        Height::Eight => 8,
        Height::Four => 4,
    }
}

fn multiply_modes(height: Height) -> u32
    ensures { result ≡ multiply_modes height }
{
    match height {
        Height::Eight => 1,
        Height::Four => 2,
    }
}

// Both modes at once: format 2 in either, format 6 with Fp32 on.
fn is_modelled(s: Settings) -> bool
    ensures { result ≡ modelled s }
{
    !s.int8 & !s.fp16a & ((s.format == 2) | (s.fp32 & (s.format == 6)))
}

// ---- the rows, by a thread's own numbers

pub fn row_a(x: Own) -> u8
    ensures { result ≡ counted_a x }
{
    x.a.at.0 & 0x30
}

pub fn row_b(x: Own) -> u8
    ensures { result ≡ counted_b x }
{
    x.b.at.0 & 0x38
}

fn dst_sum(dst: u32, offset: u16, at: u16, base: u16) -> u64
    ensures { result ≡ dst + offset + at + base }
{
    dst as u64 + offset as u64 + at as u64 + base as u64
}

fn height_mask(height: Height) -> u32
    ensures { result ≡ height_mask height }
{
    match height {
        Height::Eight => 0x3F8,
        Height::Four => 0x3FC,
    }
}

// The first Dst row: the sum is masked, and never taken modulo 512.
pub fn row_dst(base: u16, x: Own, height: Height, dst: u32) -> u32
    ensures { result ≡ counted_dst base x height dst }
{
    let sum = dst_sum(dst, x.offset, x.dst.at.0, base);
    let mask = height_mask(height);
    (sum & mask as u64) as u32
}

pub fn phase_of(x: Own) -> u8
    ensures { result ≡ counted_phase x }
{
    (x.phase % 4 + x.fidelity % 4) % 4
}

// ---- all of it. The address slots are any

pub fn multiply_reads(k: Core, thread: u8, w: MultiplyWord) -> Reads
    ensures { (s : ℕ → Choice) → result ≡ reads_of (joined k s) thread (operands.Multiply w) }
{
    let m = w.fields();
    let x = control::own_at(k, thread);
    let height = m.height;
    let count = height_rows(height);
    let a = Span {
        first: cells::bank_row(k.a.matrix, row_a(x)),
        count: 16,
    };
    let b = Span {
        first: cells::bank_row(k.b.matrix, row_b(x)),
        count,
    };
    let dst = Span {
        first: row_dst(k.settings.base, x, height, m.dst),
        count,
    };
    Reads {
        a,
        b,
        dst,
        ..vocabulary::no_reads()
    }
}

// A row below 512 is inside Dst whatever its width.
fn past_end(s: Settings, row: u32) -> bool
    ensures { result ≡ leb (row_count (width_of s)) row }
{
    if row < cells::DST_ROWS {
        return false;
    }
    cells::row_count(control::width_of(s)) <= row
}

pub fn judge_multiply(k: Core, thread: u8, w: MultiplyWord) -> Result<(), Refusal>
    ensures verdict { (s : ℕ → Choice) → result ≡ lowest (operand_rules (joined k s) thread (operands.Multiply w)) }
    ensures number { (s : ℕ → Choice) → verdict_answer result ≡ lowest_answer (operand_rules (joined k s) thread (operands.Multiply w)) }
{
    let m = w.fields();
    let height = m.height;
    if multiply_modes(height) <= m.mode {
        return Err(Refusal::UndefinedMode);
    }
    let settings = k.settings;
    if is_modelled(settings) {
        if vocabulary::both_owned(k) {
            let x = control::own_at(k, thread);
            let row = row_dst(k.settings.base, x, height, m.dst);
            return vocabulary::refused_if(past_end(settings, row), Refusal::DstRow);
        }
        return Err(Refusal::BankOwner);
    }
    Err(Refusal::UnmodelledSettings)
}
