// The record that numbers stand for, part by part from place `b` on.
ghost use Rattle.std.specs.Prelude.{◌≡◌, ◌+◌, ◌≤◌, length};
ghost use Rattle.numbers.specs.Places.{settings_length, banks_length, own_length, slot_length, thread_length};
ghost use Rattle.numbers.specs.Lists.{same_from};
ghost use Rattle.numbers.specs.Record.{settings_from, banks_from, slot_from, own_from, number_from, thread_read, no_record, record_read, record_of};

use crate::lists::{own_numbers, shared_numbers, slot_numbers};
use crate::places::{BANKS_A, BANKS_B, LAST_ROW, OWN, RECORD, SLOT, THREAD_0, THREAD_1, THREAD_2};
use cells::ByFile;
use control::{
    Banks, Control, Counter6, Counter10, Dst, DstStep, PhaseStep, SLOTS, Settings, Slot, Src,
    SrcStep, Thread,
};

// Each part asks for its own length: `first_chunk` gives an array of that length, but behind an Option whose None would be a branch that never runs.
fn read_settings(n: &[u32]) -> Settings
    requires { settings_length ≤ length n.now }
    ensures { result ≡ settings_from (number_from n.now) }
{
    Settings {
        format: (n[0] % 256) as u8,
        fp32: n[1] == 1,
        int8: n[2] == 1,
        fp16a: n[3] == 1,
        base: (n[4] % 65536) as u16,
        keep: ByFile {
            a: n[5] == 1,
            b: n[6] == 1,
        },
    }
}

fn read_banks(n: &[u32], b: usize) -> Banks
    requires { b + banks_length ≤ length n.now }
    ensures { result ≡ banks_from (number_from n.now) b }
{
    Banks {
        matrix: (n[b] % 256) as u8,
        unpack: (n[b + 1] % 256) as u8,
        owned0: n[b + 2] == 1,
        owned1: n[b + 3] == 1,
    }
}

fn read_slot(n: &[u32], b: usize) -> Slot
    requires { b + slot_length ≤ length n.now }
    ensures { result ≡ slot_from (number_from n.now) b }
{
    Slot {
        a: SrcStep {
            step: Counter6((n[b] % 256) as u8),
            clear: n[b + 1] == 1,
            carry: n[b + 2] == 1,
        },
        b: SrcStep {
            step: Counter6((n[b + 3] % 256) as u8),
            clear: n[b + 4] == 1,
            carry: n[b + 5] == 1,
        },
        dst: DstStep {
            step: Counter10((n[b + 6] % 65536) as u16),
            clear: n[b + 7] == 1,
            carry: n[b + 8] == 1,
            copy: n[b + 9] == 1,
        },
        phase: PhaseStep {
            step: (n[b + 10] % 256) as u8,
            clear: n[b + 11] == 1,
        },
    }
}

// A thread's own numbers, with its slots.
fn read_own(n: &[u32], b: usize, slots: [Slot; SLOTS]) -> Thread
    requires { b + own_length ≤ length n.now }
    ensures { result ≡ own_from (number_from n.now) b slots }
{
    Thread {
        dst: Dst {
            at: Counter10((n[b] % 65536) as u16),
            carry: Counter10((n[b + 1] % 65536) as u16),
        },
        a: Src {
            at: Counter6((n[b + 2] % 256) as u8),
            carry: Counter6((n[b + 3] % 256) as u8),
        },
        b: Src {
            at: Counter6((n[b + 4] % 256) as u8),
            carry: Counter6((n[b + 5] % 256) as u8),
        },
        phase: (n[b + 6] % 256) as u8,
        extra: n[b + 7] == 1,
        offset: (n[b + 8] % 65536) as u16,
        fidelity: (n[b + 9] % 256) as u8,
        slots,
    }
}

// ---- read, and compared with what was read

// Whether a part's numbers stand from place `b` on.
fn stand(n: &[u32], b: usize, part: &[u32]) -> bool
    requires { b + length part.now ≤ length n.now }
    ensures { result ≡ same_from b (length part.now) (number_from part.now) (number_from n.now) }
{
    let mut same = true;
    for (i, number) in part.iter().enumerate() {
        same &= n[b + i] == *number;
    }
    same
}

// The thread whose numbers stand from place `b` on. Each slot is compared as it is read: the test is then on the numbers alone, and nothing is looked up in
// the record.
fn read_thread(n: &[u32], b: usize) -> Option<Thread>
    requires { b + thread_length ≤ length n.now }
    ensures { result ≡ thread_read (number_from n.now) b }
{
    let mut slots = [control::zero_slot(); SLOTS];
    let mut same = true;
    for (s, slot) in slots.iter_mut().enumerate() {
        let p = b + OWN + SLOT * s;
        let read = read_slot(n, p);
        same &= stand(n, p, &slot_numbers(read));
        *slot = read;
    }
    let thread = read_own(n, b, slots);
    if stand(n, b, &own_numbers(thread)) & same {
        Some(thread)
    } else {
        None
    }
}

// A record out of range.
fn no_record() -> Control
    ensures { result ≡ no_record }
{
    Control {
        last: 1,
        ..control::start_record()
    }
}

fn read_record(n: &[u32]) -> Option<Control>
    ensures { result ≡ record_read n.now }
{
    if n.len() != RECORD {
        return None;
    }
    let settings = read_settings(n);
    let a = read_banks(n, BANKS_A);
    let b = read_banks(n, BANKS_B);
    let last = (n[LAST_ROW] % 256) as u8;
    if !stand(n, 0, &shared_numbers(settings, a, b, last)) {
        return None;
    }
    let x = read_thread(n, THREAD_0)?;
    let y = read_thread(n, THREAD_1)?;
    let z = read_thread(n, THREAD_2)?;
    Some(Control {
        settings,
        threads: [x, y, z],
        a,
        b,
        last,
    })
}

// The record that the numbers stand for, else one out of range.
pub fn read(n: &[u32]) -> Control
    ensures { result ≡ record_of n.now }
{
    match read_record(n) {
        Some(c) => c,
        None => no_record(),
    }
}
