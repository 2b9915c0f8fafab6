// When a record is in range.
ghost use Rattle.std.specs.Prelude.{◌≡◌};
ghost use Rattle.control.specs.Range.{slot_ok, slots_ok, thread_ok, threads_ok, banks_ok, settings_ok, last_ok, in_range};

use crate::counters::Counter;
use crate::{Banks, Control, SLOTS, Settings, Slot, THREADS, Thread};

pub fn slot_ok(s: Slot) -> bool
    ensures { result ≡ slot_ok s }
{
    s.a.step.in_range() & s.b.step.in_range() & s.dst.step.in_range() & (s.phase.step < 4)
}

fn slots_ok(slots: [Slot; SLOTS]) -> bool
    ensures { result ≡ slots_ok slots }
{
    let mut all = true;
    for slot in &slots {
        all &= slot_ok(*slot);
    }
    all
}

fn thread_ok(x: Thread) -> bool
    ensures { result ≡ thread_ok x }
{
    x.dst.in_range()
        & x.a.in_range()
        & x.b.in_range()
        & (x.phase < 4)
        & (x.offset < 1024)
        & (x.fidelity < 4)
        & slots_ok(x.slots)
}

#[tactic(auto, unfolding(crate::specs::Range::threads_ok))]
fn threads_ok(threads: [Thread; THREADS]) -> bool
    ensures { result ≡ threads_ok threads }
{
    let [x, y, z] = threads;
    thread_ok(x) & thread_ok(y) & thread_ok(z)
}

fn banks_ok(b: Banks) -> bool
    ensures { result ≡ banks_ok b }
{
    ((b.matrix as u32) < cells::BANKS) & ((b.unpack as u32) < cells::BANKS)
}

pub fn settings_ok(s: Settings) -> bool
    ensures { result ≡ settings_ok s }
{
    (s.format < 14) & (s.base < 1024)
}

fn last_ok(last: u8) -> bool
    ensures { result ≡ last_ok last }
{
    (last == 0) | (last == 16) | (last == 32) | (last == 48)
}

#[tactic(auto, unfolding(crate::specs::Range::in_range))]
pub fn in_range(c: Control) -> bool
    ensures { result ≡ in_range c }
{
    settings_ok(c.settings)
        & threads_ok(c.threads)
        & banks_ok(c.a)
        & banks_ok(c.b)
        & last_ok(c.last)
}
