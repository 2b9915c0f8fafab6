// The core of the record: taken from it and put back, and its threads.
ghost use Rattle.std.specs.Prelude.{◌≡◌, cond};
ghost use Rattle.control.specs.Halves.{own_of, choice_of, thread_of, core_of, choices_of, joined, own_at, core_with, start_core};

use crate::change::clear_if;
use crate::{Control, Core, Own, Thread};
use cells::ByFile;

// The core before any field acts.
#[tactic(auto, unfolding(crate::specs::Halves::core_of, crate::specs::Record::start))]
pub fn start_core() -> Core
    ensures { result ≡ start_core }
{
    Core::default()
}

// ---- of a record

impl From<Thread> for Own {
    ghost from_gives = { λ x o. o ≡ own_of x };

    fn from(x: Thread) -> Own {
        Own {
            dst: x.dst,
            a: x.a,
            b: x.b,
            phase: x.phase,
            offset: x.offset,
            fidelity: x.fidelity,
        }
    }
}

impl From<Control> for Core {
    ghost from_gives = { λ c k. k ≡ core_of c };

    #[tactic(auto, unfolding(crate::specs::Halves::core_of))]
    fn from(c: Control) -> Core {
        let [x, y, z] = c.threads;
        Core {
            settings: c.settings,
            x: x.into(),
            y: y.into(),
            z: z.into(),
            a: c.a,
            b: c.b,
            last: c.last,
        }
    }
}

fn thread_with(x: Thread, o: Own) -> Thread
    ensures { result ≡ thread_of o (choice_of x) }
{
    Thread {
        dst: o.dst,
        a: o.a,
        b: o.b,
        phase: o.phase,
        offset: o.offset,
        fidelity: o.fidelity,
        ..x
    }
}

// The record with another core; the address slots stay.
#[tactic(auto, unfolding(crate::specs::Halves::joined))]
pub fn with_core(c: Control, k: Core) -> Control
    ensures { result ≡ joined k (choices_of c) }
{
    let [x, y, z] = c.threads;
    Control {
        settings: k.settings,
        threads: [
            thread_with(x, k.x),
            thread_with(y, k.y),
            thread_with(z, k.z),
        ],
        a: k.a,
        b: k.b,
        last: k.last,
    }
}

// ---- the threads

pub fn own_at(k: Core, thread: u8) -> Own
    ensures { result ≡ own_at k thread }
{
    match thread {
        0 => k.x,
        1 => k.y,
        2 => k.z,
        _ => Own::default(),
    }
}

// The core with a thread's own numbers anew, the banks after a clear, and the last SrcA row. It is written out field by field: so it stands in its callers'
// code, and nothing of the core goes through memory. Most instructions clear no file, and then the banks and the switches are not looked at.
pub fn core_with(k: Core, thread: u8, own: Own, clear: ByFile<bool>, last: u8) -> Core
    ensures { result ≡ core_with k thread own clear last }
{
    let mut a = k.a;
    let mut b = k.b;
    if clear.a | clear.b {
        a = clear_if(k.a, clear.a, k.settings.keep.a);
        b = clear_if(k.b, clear.b, k.settings.keep.b);
    }
    Core {
        settings: k.settings,
        x: if thread == 0 { own } else { k.x },
        y: if thread == 1 { own } else { k.y },
        z: if thread == 2 { own } else { k.z },
        a,
        b,
        last,
    }
}

// The same where it stands: only the thread's own numbers are written, the banks where one is cleared, and the last SrcA row.
#[inline(always)]
pub fn set_core(k: &mut Core, thread: u8, own: Own, clear: ByFile<bool>, last: u8)
    ensures { k.new ≡ core_with k.old thread own clear last }
{
    if clear.a | clear.b {
        let keep = k.settings.keep;
        k.a = clear_if(k.a, clear.a, keep.a);
        k.b = clear_if(k.b, clear.b, keep.b);
    }
    match thread {
        0 => k.x = own,
        1 => k.y = own,
        2 => k.z = own,
        _ => {}
    }
    k.last = last;
}
