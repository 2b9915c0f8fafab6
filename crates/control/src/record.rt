// The record at the start, its parts, and the width of Dst's rows.
ghost use Rattle.std.specs.Prelude.{◌≡◌};
ghost use Rattle.control.specs.Record.{bf16_mode, width_from, width_of, zero_slot, start_thread, start, thread_at, slot_used, owned_at, matrix_owns, matrix_owns_next};

use crate::{Banks, Control, Settings, Slot, Thread};
use cells::Width;

// ---- at the start

// A slot that changes nothing.
pub fn zero_slot() -> Slot
    ensures { result ≡ zero_slot }
{
    Slot::default()
}

pub fn start_thread() -> Thread
    ensures { result ≡ start_thread }
{
    Thread::default()
}

// The record before any field acts.
#[tactic(auto, unfolding(crate::specs::Record::start))]
pub fn start_record() -> Control
    ensures { result ≡ start }
{
    Control::default()
}

// ---- the parts

pub fn thread_at(c: Control, thread: u8) -> Thread
    ensures { result ≡ thread_at c thread }
{
    match c.threads.get(thread as usize) {
        Some(x) => *x,
        None => start_thread(),
    }
}

// The slot that a two-bit number names: plus 4 when the extra bit is 1.
pub fn slot_used(x: Thread, n: u32) -> Slot
    ensures { result ≡ slot_used x n }
{
    let i = if x.extra { n as usize + 4 } else { n as usize };
    match x.slots.get(i) {
        Some(slot) => *slot,
        None => zero_slot(),
    }
}

fn owned_at(b: Banks, bank: u8) -> bool
    ensures { result ≡ owned_at b bank }
{
    if bank == 0 { b.owned0 } else { b.owned1 }
}

// Whether the matrix unit owns the bank at its own pointer, and the one at the unpackers'.
pub fn matrix_owns(b: Banks) -> bool
    ensures { result ≡ matrix_owns b }
{
    owned_at(b, b.matrix)
}

pub fn matrix_owns_next(b: Banks) -> bool
    ensures { result ≡ matrix_owns_next b }
{
    owned_at(b, b.unpack)
}

// ---- the width of Dst's rows

// Fp32, INT8 and FP16A force off and format 2.
fn bf16_mode(format: u32, fp32: bool, int8: bool, fp16a: bool) -> bool
    ensures { result ≡ bf16_mode format fp32 int8 fp16a }
{
    !fp32 & !int8 & !fp16a & (format == 2)
}

pub fn width_from(format: u32, fp32: bool, int8: bool, fp16a: bool) -> Width
    ensures { result ≡ width_from format fp32 int8 fp16a }
{
    if bf16_mode(format, fp32, int8, fp16a) {
        Width::Bits16
    } else {
        Width::Bits32
    }
}

pub fn width_of(s: Settings) -> Width
    ensures { result ≡ width_of s }
{
    width_from(s.format as u32, s.fp32, s.int8, s.fp16a)
}
