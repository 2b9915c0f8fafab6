// What becomes of the record: clear and hand over, the slot, SETRWC and INCRWC.
ghost use Rattle.std.specs.Prelude.{◌≡◌, cond};
ghost use Rattle.control.specs.Change.{other_bank, owner_set, flipped, cleared, cleared_if, hand_over, step_src, step_dst, step_phase, apply_slot, set_thread, add_thread};
ghost use Rattle.control.specs.Halves.{Choice, thread_of};

use crate::counters::Counter;
use crate::{Banks, Counter6, Counter10, Dst, DstStep, Own, PhaseStep, Slot, Src, SrcStep};
use word::Which;

// ---- clear and hand over

fn owner_set(b: Banks, bank: u8, matrix: bool) -> Banks
    ensures { result ≡ owner_set b bank matrix }
{
    if bank == 0 {
        Banks {
            owned0: matrix,
            ..b
        }
    } else {
        Banks {
            owned1: matrix,
            ..b
        }
    }
}

fn other_bank(bank: u8) -> u8
    ensures { result ≡ other_bank bank }
{
    if bank == 0 { 1 } else { 0 }
}

// The matrix pointer moves to the other bank.
fn flip(b: Banks) -> Banks
    ensures { result ≡ flipped b }
{
    Banks {
        matrix: other_bank(b.matrix),
        ..b
    }
}

// The bank at the matrix pointer becomes the unpackers', and the pointer moves; with the file's switch on the pointer moves alone.
#[tactic(auto, unfolding(crate::specs::Change::cleared))]
fn clear(b: Banks, keep: bool) -> Banks
    ensures { result ≡ cleared b keep }
{
    if keep {
        flip(b)
    } else {
        flip(owner_set(b, b.matrix, false))
    }
}

pub(crate) fn clear_if(b: Banks, on: bool, keep: bool) -> Banks
    ensures { result ≡ cleared_if b on keep }
{
    if on { clear(b, keep) } else { b }
}

// The bank at the unpackers' pointer becomes the matrix unit's, and their pointer moves to the other bank.
#[tactic(auto, unfolding(crate::specs::Change::hand_over))]
pub fn hand_over(b: Banks) -> Banks
    ensures { result ≡ hand_over b }
{
    Banks {
        unpack: other_bank(b.unpack),
        ..owner_set(b, b.unpack, true)
    }
}

// ---- slot

fn step_src(s: Src, by: SrcStep) -> Src
    ensures { result ≡ step_src s by }
{
    s.stepped(by.step, by.clear, false, by.carry)
}

fn step_dst(d: Dst, by: DstStep) -> Dst
    ensures { result ≡ step_dst d by }
{
    d.stepped(by.step, by.clear, by.copy, by.carry)
}

fn step_phase(phase: u8, by: PhaseStep) -> u8
    ensures { result ≡ step_phase phase by }
{
    if by.clear {
        0
    } else {
        (phase % 4 + by.step % 4) % 4
    }
}

// The address slots are any, here and below.
#[tactic(auto, unfolding(crate::specs::Change::apply_slot))]
pub fn apply_slot(x: Own, s: Slot) -> Own
    ensures { (h : Choice) → thread_of result h ≡ apply_slot (thread_of x h) s }
{
    Own {
        dst: step_dst(x.dst, s.dst),
        a: step_src(x.a, s.a),
        b: step_src(x.b, s.b),
        phase: step_phase(x.phase, s.phase),
        ..x
    }
}

// ---- SETRWC and INCRWC

fn set_phase(phase: u8, on: bool) -> u8
    ensures { result ≡ cond on 0 phase }
{
    if on { 0 } else { phase }
}

pub fn set_counters(x: Own, which: Which, d: u32, b: u32, a: u32) -> Own
    ensures { (h : Choice) → thread_of result h ≡ set_thread (thread_of x h) which d b a }
{
    Own {
        dst: x.dst.set_if(which.dst, d),
        a: x.a.set_if(which.a, a),
        b: x.b.set_if(which.b, b),
        phase: set_phase(x.phase, which.phase),
        ..x
    }
}

pub fn add_counters(x: Own, d: u32, b: u32, a: u32) -> Own
    ensures { (h : Choice) → thread_of result h ≡ add_thread (thread_of x h) d b a }
{
    Own {
        dst: x.dst.added(Counter10::of(d)),
        a: x.a.added(Counter6::of(a)),
        b: x.b.added(Counter6::of(b)),
        ..x
    }
}
