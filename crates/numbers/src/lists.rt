// The numbers of a record, part by part, and those that an instruction can change written.
ghost use Rattle.std.specs.Prelude.{◌≡◌, ◌+◌, ◌≤◌, length};
ghost use Rattle.numbers.specs.Lists.{shared_numbers, own_numbers, slot_numbers, but_slots_over, over_from};
ghost use Rattle.numbers.specs.Record.{number_from};

use crate::places::{OWN, RECORD, SHARED, SLOT, THREAD_0, THREAD_1, THREAD_2};
use control::{Banks, Control, Settings, Slot, Thread};

// What the threads share.
pub(crate) fn shared_numbers(s: Settings, a: Banks, b: Banks, last: u8) -> [u32; SHARED]
    ensures { result ≡ shared_numbers s a b last }
{
    [
        s.format as u32,
        s.fp32 as u32,
        s.int8 as u32,
        s.fp16a as u32,
        s.base as u32,
        s.keep.a as u32,
        s.keep.b as u32,
        a.matrix as u32,
        a.unpack as u32,
        a.owned0 as u32,
        a.owned1 as u32,
        b.matrix as u32,
        b.unpack as u32,
        b.owned0 as u32,
        b.owned1 as u32,
        last as u32,
    ]
}

// A thread's own.
pub(crate) fn own_numbers(x: Thread) -> [u32; OWN]
    ensures { result ≡ own_numbers x }
{
    [
        x.dst.at.0 as u32,
        x.dst.carry.0 as u32,
        x.a.at.0 as u32,
        x.a.carry.0 as u32,
        x.b.at.0 as u32,
        x.b.carry.0 as u32,
        x.phase as u32,
        x.extra as u32,
        x.offset as u32,
        x.fidelity as u32,
    ]
}

pub(crate) fn slot_numbers(s: Slot) -> [u32; SLOT]
    ensures { result ≡ slot_numbers s }
{
    [
        s.a.step.0 as u32,
        s.a.clear as u32,
        s.a.carry as u32,
        s.b.step.0 as u32,
        s.b.clear as u32,
        s.b.carry as u32,
        s.dst.step.0 as u32,
        s.dst.clear as u32,
        s.dst.carry as u32,
        s.dst.copy as u32,
        s.phase.step as u32,
        s.phase.clear as u32,
    ]
}

// ---- written

// A part's numbers from place `b` on.
fn put(n: &mut [u32], b: usize, part: &[u32])
    requires { b + length part.now ≤ length n.old }
    ensures { n.new ≡ over_from b (length part.now) (number_from part.now) n.old }
{
    n[b..b + part.len()].copy_from_slice(part);
}

// The numbers of a record but for its slots' over those of `n`; a slice of another length stays as it was.
pub fn write_but_slots(c: Control, n: &mut [u32])
    ensures { n.new ≡ but_slots_over c n.old }
{
    if n.len() != RECORD {
        return;
    }
    let [x, y, z] = c.threads;
    put(n, 0, &shared_numbers(c.settings, c.a, c.b, c.last));
    put(n, THREAD_0, &own_numbers(x));
    put(n, THREAD_1, &own_numbers(y));
    put(n, THREAD_2, &own_numbers(z));
}
