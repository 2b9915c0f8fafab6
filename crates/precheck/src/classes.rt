// What an instruction breaks first of the rules 4 to 8, and the marks that it makes where it breaks none: a function for each class, which tests and
// marks what the class reads and sets and nothing else. The address slots, and marks that a class does not touch, are any.
ghost use Rattle.std.specs.Prelude.{Bool, List, ℕ};
ghost use Rattle.word.specs.declared.Operands.TheVariants as operands;
ghost use Rattle.control.specs.declared.Control.{Control};
ghost use Rattle.control.specs.Halves.{Choice, joined};
ghost use Rattle.precheck.specs.Marks.{marks};
ghost use Rattle.precheck.specs.Instruction.{InstructionChecked};

use crate::marking::{all_set, is_set, mark_span, set_one, unset_cleared};
use cells::{REGISTERS, SRC_ROWS};
use control::Core;
use word::{
    LegacyWord, MultiplyWord, Operands, Refusal, ScalarWord, SetCountersWord, ShiftAWord,
    ShiftBWord, ZeroSrcWord,
};

fn check_multiply(
    k: Core,
    thread: u8,
    w: MultiplyWord,
    srca: &mut [bool],
    srcb: &mut [bool],
    dst: &[bool],
) -> Result<(), Refusal>
    ensures { (s : ℕ → Choice) (r : List Bool) → InstructionChecked (joined k s) (marks srca.old srcb.old dst.now r) thread
        (operands.Multiply w) result (marks srca.new srcb.new dst.now r) }
{
    rules::multiply::judge_multiply(k, thread, w)?;
    let reads = rules::multiply::multiply_reads(k, thread, w);
    if all_set(srca, reads.a) & all_set(srcb, reads.b) & all_set(dst, reads.dst) {
        unset_cleared(k, w.fields().clear, srca, srcb);
        return Ok(());
    }
    Err(Refusal::UnsetRead)
}

fn check_legacy(k: Core, w: LegacyWord, srca: &mut [bool], srcb: &mut [bool]) -> Result<(), Refusal>
    ensures { (s : ℕ → Choice) (t : ℕ) (d r : List Bool) → InstructionChecked (joined k s) (marks srca.old srcb.old d r) t
        (operands.Legacy w) result (marks srca.new srcb.new d r) }
{
    rules::legacy::judge_legacy(k)?;
    unset_cleared(k, w.fields().clear, srca, srcb);
    Ok(())
}

fn check_set(
    k: Core,
    w: SetCountersWord,
    srca: &mut [bool],
    srcb: &mut [bool],
) -> Result<(), Refusal>
    ensures { (s : ℕ → Choice) (t : ℕ) (d r : List Bool) → InstructionChecked (joined k s) (marks srca.old srcb.old d r) t
        (operands.SetCounters w) result (marks srca.new srcb.new d r) }
{
    let x = w.fields();
    rules::counters::judge_counters(x.mode)?;
    unset_cleared(k, x.clear, srca, srcb);
    Ok(())
}

fn check_zero(k: Core, w: ZeroSrcWord, srca: &mut [bool], srcb: &mut [bool]) -> Result<(), Refusal>
    ensures { (s : ℕ → Choice) (t : ℕ) (d r : List Bool) → InstructionChecked (joined k s) (marks srca.old srcb.old d r) t
        (operands.ZeroSrc w) result (marks srca.new srcb.new d r) }
{
    let z = w.fields();
    mark_span(rules::zero_src::filled_if(z.a, k.a, z), true, srca);
    mark_span(rules::zero_src::filled_if(z.b, k.b, z), true, srcb);
    Ok(())
}

fn check_shift_a(k: Core, w: ShiftAWord, srca: &mut [bool]) -> Result<(), Refusal>
    ensures { (s : ℕ → Choice) (t : ℕ) (b d r : List Bool) → InstructionChecked (joined k s) (marks srca.old b d r) t
        (operands.ShiftA w) result (marks srca.new b d r) }
{
    rules::shifts::judge_shift_a(k, w)?;
    if all_set(srca, rules::shifts::shift_a_reads(k).a) {
        mark_span(rules::shifts::shifted_a(k), true, srca);
        return Ok(());
    }
    Err(Refusal::UnsetRead)
}

fn check_shift_b(k: Core, thread: u8, w: ShiftBWord, srcb: &[bool]) -> Result<(), Refusal>
    ensures { (s : ℕ → Choice) (a d r : List Bool) → InstructionChecked (joined k s) (marks a srcb.now d r) thread
        (operands.ShiftB w) result (marks a srcb.now d r) }
{
    rules::shifts::judge_shift_b(k)?;
    if all_set(srcb, rules::shifts::shift_b_reads(k, thread, w).b) {
        return Ok(());
    }
    Err(Refusal::UnsetRead)
}

// Under any record. The registers are tested where they stand.
fn check_scalar(thread: u8, w: ScalarWord, registers: &mut [bool]) -> Result<(), Refusal>
    ensures { (c : Control) (a b d : List Bool) → InstructionChecked c (marks a b d registers.old) thread
        (operands.Scalar w) result (marks a b d registers.new) }
{
    rules::scalar::judge_scalar(w)?;
    let x = w.fields();
    let left = is_set(registers, cells::register_at(thread, x.a));
    let right = x.constant | is_set(registers, cells::register_at(thread, x.b));
    if left & right {
        set_one(cells::register_at(thread, x.result), registers);
        return Ok(());
    }
    Err(Refusal::UnsetRead)
}

pub(crate) fn check_operands(
    k: Core,
    thread: u8,
    f: Operands,
    srca: &mut [bool; SRC_ROWS as usize],
    srcb: &mut [bool; SRC_ROWS as usize],
    dst: &[bool],
    registers: &mut [bool; REGISTERS],
) -> Result<(), Refusal>
    ensures { (s : ℕ → Choice) → InstructionChecked (joined k s) (marks srca.old srcb.old dst.now registers.old) thread
        f result (marks srca.new srcb.new dst.now registers.new) }
{
    match f {
        Operands::Multiply(w) => check_multiply(k, thread, w, srca, srcb, dst),
        Operands::Legacy(w) => check_legacy(k, w, srca, srcb),
        Operands::SetCounters(w) => check_set(k, w, srca, srcb),
        Operands::AddCounters(w) => rules::counters::judge_counters(w.fields().mode),
        Operands::ZeroSrc(w) => check_zero(k, w, srca, srcb),
        Operands::ShiftA(w) => check_shift_a(k, w, srca),
        Operands::ShiftB(w) => check_shift_b(k, thread, w, srcb),
        Operands::NoEffect => Ok(()),
        Operands::Scalar(w) => check_scalar(thread, w, registers),
    }
}
