// The table of twenty, in the paper's order.
ghost use Rattle.std.specs.Prelude.{◌≡◌};
ghost use Rattle.word.specs.Table.{table, lookup};
ghost use Rattle.word.specs.Entries.{found_of, masked, masked_bit};

use crate::Class;

// A row: an opcode, the bits that may be 1, and the class.
#[derive(Clone, Copy)]
pub(crate) struct Entry(pub u32, pub u32, pub Class);

const ENTRIES: usize = 20;

const TABLE: [Entry; ENTRIES] = [
    Entry(0x26, 0xF8FFFF, Class::Multiply), // MVMUL
    Entry(0x29, 0xF8FFFF, Class::Multiply), // DOTPV
    Entry(0x34, 0xF9BFFF, Class::Multiply), // GAPOOL
    Entry(0x22, 0xC2FFFF, Class::Legacy), // CONV3S1
    Entry(0x23, 0xC2FFFF, Class::Legacy), // CONV3S2
    Entry(0x24, 0xC2FFFF, Class::Legacy), // MPOOL3S1
    Entry(0x25, 0xC2FFFF, Class::Legacy), // APOOL3S1
    Entry(0x31, 0xC2FFFF, Class::Legacy), // MPOOL3S2
    Entry(0x32, 0xC2FFFF, Class::Legacy), // APOOL3S2
    Entry(0x37, 0xFFFFCF, Class::SetCounters), // SETRWC
    Entry(0x38, 0xFFFFC0, Class::AddCounters), // INCRWC
    Entry(0x11, 0xFFFFFF, Class::ZeroSrc), // ZEROSRC
    Entry(0x17, 0x000003, Class::ShiftA), // SHIFTXA
    Entry(0x18, 0x00C7FF, Class::ShiftB), // SHIFTXB
    Entry(0x35, 0x000003, Class::NoEffect), // GATESRCRST
    Entry(0x21, 0x000000, Class::NoEffect), // CLREXPHIST
    Entry(0x46, 0x00000F, Class::NoEffect), // FLUSHDMA
    Entry(0x5B, 0x9FFFFF, Class::Scalar), // BITWOPDMAREG
    Entry(0x5C, 0x9FFFFF, Class::Scalar), // SHIFTDMAREG
    Entry(0x5D, 0x9FFFFF, Class::Scalar), // CMPDMAREG
];

// The row of an opcode. The arms stand in the table's order. Each names its row by a fixed place, so nothing of the table is laid out when this runs.
pub(crate) fn find(opcode: u32) -> Option<Entry>
    ensures { result ≡ found_of (lookup table opcode) }
{
    let rows = TABLE;
    match opcode {
        0x26 => Some(rows[0]),
        0x29 => Some(rows[1]),
        0x34 => Some(rows[2]),
        0x22 => Some(rows[3]),
        0x23 => Some(rows[4]),
        0x24 => Some(rows[5]),
        0x25 => Some(rows[6]),
        0x31 => Some(rows[7]),
        0x32 => Some(rows[8]),
        0x37 => Some(rows[9]),
        0x38 => Some(rows[10]),
        0x11 => Some(rows[11]),
        0x17 => Some(rows[12]),
        0x18 => Some(rows[13]),
        0x35 => Some(rows[14]),
        0x21 => Some(rows[15]),
        0x46 => Some(rows[16]),
        0x5B => Some(rows[17]),
        0x5C => Some(rows[18]),
        0x5D => Some(rows[19]),
        _ => None,
    }
}

// Whether each of the low 24 bits that is 1 is allowed to be.
pub(crate) fn allows(allowed: u32, w: u32) -> bool
    ensures { result ≡ masked w allowed }
{
    let low = w % 0x1000000;
    low & allowed == low
}

// The lowest of the low 24 bits that is 1 and not allowed to be; 32 where each is allowed.
pub(crate) fn lowest_stray(allowed: u32, w: u32) -> u8
    ensures { result ≡ masked_bit w allowed }
{
    let low = w % 0x1000000;
    u32::trailing_zeros(low - (low & allowed)) as u8
}
