// Every instruction once in each of: the rules 4 to 7, and what becomes of the record.
ghost use Rattle.std.specs.Prelude.{◌≡◌, ℕ};
ghost use Rattle.control.specs.Halves.{Choice, thread_of, joined};
ghost use Rattle.control.specs.Record.{thread_at, slot_used};
ghost use Rattle.rules.specs.Vocabulary.{no_clear};
ghost use Rattle.rules.specs.Multiply.{counted_a};
ghost use Rattle.rules.specs.Instructions.{meaning_of};
ghost use Rattle.rules.specs.After.{slot_number, thread_by, last_by, record_after, leaves_record};
ghost use Rattle.rules.specs.Rules.{operand_rules, lowest, verdict_answer, lowest_answer};

use crate::{counters, legacy, multiply, scalar, shifts};
use cells::ByFile;
use control::{Core, Own, Slot};
use word::{Operands, Refusal};

fn no_clear() -> ByFile<bool>
    ensures { result ≡ no_clear }
{
    ByFile { a: false, b: false }
}

// Which of the rules 4 to 7 is broken first. The address slots are any.
pub fn judge_operands(k: Core, thread: u8, f: Operands) -> Result<(), Refusal>
    ensures verdict { (s : ℕ → Choice) → result ≡ lowest (operand_rules (joined k s) thread f) }
    ensures number { (s : ℕ → Choice) → verdict_answer result ≡ lowest_answer (operand_rules (joined k s) thread f) }
{
    match f {
        Operands::Multiply(w) => multiply::judge_multiply(k, thread, w),
        Operands::Legacy(_) => legacy::judge_legacy(k),
        Operands::SetCounters(w) => counters::judge_counters(w.fields().mode),
        Operands::AddCounters(w) => counters::judge_counters(w.fields().mode),
        Operands::ZeroSrc(_) => Ok(()),
        Operands::ShiftA(w) => shifts::judge_shift_a(k, w),
        Operands::ShiftB(_) => shifts::judge_shift_b(k),
        Operands::NoEffect => Ok(()),
        Operands::Scalar(w) => scalar::judge_scalar(w),
    }
}

// The number that names its slot; 0 where it has none.
pub fn slot_number(f: Operands) -> u32
    ensures { result ≡ slot_number f }
{
    match f {
        Operands::Multiply(w) => w.fields().slot,
        Operands::Legacy(w) => w.fields().slot,
        Operands::SetCounters(_) => 0,
        Operands::AddCounters(_) => 0,
        Operands::ZeroSrc(_) => 0,
        Operands::ShiftA(_) => 0,
        Operands::ShiftB(w) => w.fields().slot,
        Operands::NoEffect => 0,
        Operands::Scalar(_) => 0,
    }
}

// ---- the record after it, part by part: a thread's own numbers, the files that it clears, the last SrcA row; put together by the control crate

// Of its thread, whose own numbers are `x`; `slot` is the one that its number names. The address slots are any.
#[inline(always)]
pub fn own_after(x: Own, slot: Slot, f: Operands) -> Own
    ensures { (h : Choice) → thread_of result h ≡ thread_by (meaning_of f).move slot (thread_of x h) }
{
    match f {
        Operands::Multiply(_) => {}
        Operands::Legacy(_) => {}
        Operands::SetCounters(w) => {
            let s = w.fields();
            let which = s.which;
            return control::set_counters(x, which, s.d, s.b, s.a);
        }
        Operands::AddCounters(w) => {
            let s = w.fields();
            return control::add_counters(x, s.d, s.b, s.a);
        }
        Operands::ZeroSrc(_) => return x,
        Operands::ShiftA(_) => return x,
        Operands::ShiftB(_) => {}
        Operands::NoEffect => return x,
        Operands::Scalar(_) => return x,
    }
    control::apply_slot(x, slot)
}

// The files that it clears.
#[inline(always)]
pub fn clear_by(f: Operands) -> ByFile<bool>
    ensures { result ≡ (meaning_of f).clear }
{
    match f {
        Operands::Multiply(w) => w.fields().clear,
        Operands::Legacy(w) => w.fields().clear,
        Operands::SetCounters(w) => w.fields().clear,
        Operands::AddCounters(_) => no_clear(),
        Operands::ZeroSrc(_) => no_clear(),
        Operands::ShiftA(_) => no_clear(),
        Operands::ShiftB(_) => no_clear(),
        Operands::NoEffect => no_clear(),
        Operands::Scalar(_) => no_clear(),
    }
}

// By the thread's own numbers before it.
#[inline(always)]
pub fn last_after(x: Own, last: u8, f: Operands) -> u8
    ensures { result ≡ last_by (meaning_of f).move (counted_a x) last }
{
    match f {
        Operands::Multiply(_) => {}
        Operands::Legacy(_) => {}
        Operands::SetCounters(_) => return last,
        Operands::AddCounters(_) => return last,
        Operands::ZeroSrc(_) => return last,
        Operands::ShiftA(_) => return last,
        Operands::ShiftB(_) => return last,
        Operands::NoEffect => return last,
        Operands::Scalar(_) => return last,
    }
    multiply::row_a(x)
}

// The core after it; `slot` is the one that its number names.
#[inline(always)]
pub fn core_after(k: Core, thread: u8, slot: Slot, f: Operands) -> Core
    ensures { (s : ℕ → Choice) → slot ≡ slot_used (thread_at (joined k s) thread) (slot_number f)
        → joined result s ≡ record_after (joined k s) thread f }
{
    let x = control::own_at(k, thread);
    let own = own_after(x, slot, f);
    let clear = clear_by(f);
    let last = last_after(x, k.last, f);
    control::core_with(k, thread, own, clear, last)
}

// Whether it leaves the record as it is, whatever this holds.
pub fn leaves_record(f: Operands) -> bool
    ensures { result ≡ leaves_record f }
{
    match f {
        Operands::Multiply(_) => false,
        Operands::Legacy(_) => false,
        Operands::SetCounters(_) => false,
        Operands::AddCounters(_) => false,
        Operands::ZeroSrc(_) => true,
        Operands::ShiftA(_) => true,
        Operands::ShiftB(_) => false,
        Operands::NoEffect => true,
        Operands::Scalar(_) => true,
    }
}
