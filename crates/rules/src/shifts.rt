// SHIFTXA, SHIFTXB: all but the numbers.
ghost use Rattle.std.specs.Prelude.{◌≡◌, not, [], ◌∷◌, ℕ};
ghost use Rattle.word.specs.declared.ShiftAWord.{ShiftAWord};
ghost use Rattle.word.specs.declared.Operands.TheVariants as operands;
ghost use Rattle.control.specs.Record.{matrix_owns};
ghost use Rattle.control.specs.Halves.{Choice, joined};
ghost use Rattle.rules.specs.Shifts.{shifted_a, shifted_b};
ghost use Rattle.rules.specs.Access.{reads_of};
ghost use Rattle.rules.specs.Rules.{operand_rules, lowest, ◌when◌, refused_if, verdict_answer, lowest_answer};

use crate::{Reads, vocabulary};
use cells::Span;
use control::Core;
use word::{Refusal, ShiftAWord, ShiftB, ShiftBWord};

// ---- SHIFTXA

// The address slots are any, here and below.
pub fn shifted_a(k: Core) -> Span
    ensures { (s : ℕ → Choice) → result ≡ shifted_a (joined k s) }
{
    Span {
        first: cells::bank_row(k.a.matrix, 0),
        count: 16,
    }
}

pub fn shift_a_reads(k: Core) -> Reads
    ensures { (s : ℕ → Choice) (w : ShiftAWord) → result ≡ reads_of (joined k s) 0 (operands.ShiftA w) }
{
    let a = Span {
        first: cells::bank_row(k.a.matrix, k.last),
        count: 16,
    };
    Reads {
        a,
        ..vocabulary::no_reads()
    }
}

pub fn judge_shift_a(k: Core, w: ShiftAWord) -> Result<(), Refusal>
    ensures verdict { (s : ℕ → Choice) → result ≡ lowest (operand_rules (joined k s) 0 (operands.ShiftA w)) }
    ensures number { (s : ℕ → Choice) → verdict_answer result ≡ lowest_answer (operand_rules (joined k s) 0 (operands.ShiftA w)) }
{
    if w.mode() < 2 {
        return Err(Refusal::UndefinedMode);
    }
    let a = k.a;
    vocabulary::refused_if(!control::matrix_owns(a), Refusal::BankOwner)
}

// ---- SHIFTXB

pub fn shifted_b(k: Core, thread: u8, f: ShiftB) -> u32
    ensures { (s : ℕ → Choice) → result ≡ shifted_b (joined k s) thread f }
{
    let banks = k.b;
    let x = control::own_at(k, thread);
    let row = (f.row % cells::BANK_ROWS + x.b.at.0 as u32) % cells::BANK_ROWS;
    banks.matrix as u32 * cells::BANK_ROWS + row
}

pub fn shift_b_reads(k: Core, thread: u8, w: ShiftBWord) -> Reads
    ensures { (s : ℕ → Choice) → result ≡ reads_of (joined k s) thread (operands.ShiftB w) }
{
    let b = Span {
        first: shifted_b(k, thread, w.fields()),
        count: 1,
    };
    Reads {
        b,
        ..vocabulary::no_reads()
    }
}

pub fn judge_shift_b(k: Core) -> Result<(), Refusal>
    ensures verdict { result ≡ refused_if (not (matrix_owns k.b)) Refusal.BankOwner }
    ensures number { verdict_answer result ≡ lowest_answer ((Refusal.BankOwner when not (matrix_owns k.b)) ∷ []) }
{
    let b = k.b;
    vocabulary::refused_if(!control::matrix_owns(b), Refusal::BankOwner)
}
