// The sizes of the lent files and of a job, each once, and where a row or a register stands in its file.
ghost use Rattle.std.specs.Prelude.{◌≡◌};
ghost use Rattle.cells.specs.Layout.{bank_row, register, row_start, no_span, bank_span};

// Numbers to a row.
pub const COLUMNS: usize = 16;

// Rows to a bank, and banks to a Src file.
pub const BANK_ROWS: u32 = 64;

pub const BANKS: u32 = 2;

// Lent rows of Dst.
pub const DST_ROWS: u32 = 512;

// Threads, and registers to a thread.
pub const THREADS: u8 = 3;

pub const THREAD_REGISTERS: u32 = 64;

// A Src value is below this.
pub const SRC_LIMIT: u32 = 524288;

// A job has at most so many bytes.
pub const JOB_BYTES: usize = 8192;

// The rows of a Src file; the numbers of the files that a caller lends.
pub const SRC_ROWS: u32 = BANKS * BANK_ROWS;

pub const SRC_NUMBERS: usize = SRC_ROWS as usize * COLUMNS;

pub const DST_NUMBERS: usize = DST_ROWS as usize * COLUMNS;

pub const REGISTERS: usize = THREADS as usize * THREAD_REGISTERS as usize;

// The two Src files.
#[derive(Clone, Copy)]
pub enum File {
    A,
    B,
}

// `count` rows, or registers, from `first` on.
#[derive(Clone, Copy)]
pub struct Span {
    pub first: u32,
    pub count: u32,
}

// One of a kind for SrcA, and one for SrcB.
#[derive(Clone, Copy, Default)]
pub struct ByFile<T> {
    pub a: T,
    pub b: T,
}

// Row `row` of a bank, counted from the start of its file.
pub fn bank_row(bank: u8, row: u8) -> u32
    ensures { result ≡ bank_row bank row }
{
    u32::from(bank) * BANK_ROWS + u32::from(row)
}

// Register `r` of a thread, counted from the start of the registers.
pub fn register_at(thread: u8, r: u8) -> u32
    ensures { result ≡ register thread r }
{
    u32::from(thread) * THREAD_REGISTERS + u32::from(r)
}

// The place of a row's first number.
pub fn row_start(row: u32) -> usize
    ensures { result ≡ row_start row }
{
    row as usize * COLUMNS
}

pub fn no_span() -> Span
    ensures { result ≡ no_span }
{
    Span { first: 0, count: 0 }
}

// All rows of a bank.
pub fn bank_span(bank: u8) -> Span
    ensures { result ≡ bank_span bank }
{
    Span {
        first: bank_row(bank, 0),
        count: BANK_ROWS,
    }
}
