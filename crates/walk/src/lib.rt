// What a field makes of the core of the control record, for the pre-check and for the job run, which both walk over a job's fields.
#![tactic(auto)]

ghost use Rattle.std.specs.Prelude.{◌≡◌, ℕ, ◌<◌, ◌^◌};
ghost use Rattle.cells.specs.Layout.{bank_row};
ghost use Rattle.control.specs.Halves.{Choice, joined};
ghost use Rattle.rules.specs.After.{record_after};
ghost use Rattle.job.specs.Settings.{choices_in};
ghost use Rattle.walk.specs.FieldRecord.{banks_of, loaded_rows, handed_over};

use cells::{File, Span};
use control::{Banks, Core};
use word::Operands;

// The address slots are any, here and below.
#[tactic(auto, unfolding(control::specs::Halves::joined))]
pub fn banks_of(k: Core, file: File) -> Banks
    ensures { (s : ℕ → Choice) → result ≡ banks_of (joined k s) file }
{
    match file {
        File::A => k.a,
        File::B => k.b,
    }
}

// The first row of the bank that a load of a Src file goes into, the one at the unpackers' pointer.
pub fn bank_start(k: Core, file: File) -> u32
    ensures { (s : ℕ → Choice) → result ≡ bank_row (banks_of (joined k s) file).unpack 0 }
{
    let banks = banks_of(k, file);
    cells::bank_row(banks.unpack, 0)
}

// The first row of a Src file that a load writes.
pub fn first_loaded(k: Core, file: File, rows: Span) -> usize
    ensures { ((s : ℕ → Choice) → result ≡ (loaded_rows (joined k s) file rows).first) × (result < 2 ^ 33) }
{
    bank_start(k, file) as usize + rows.first as usize
}

// After an instruction; its address slots stand in the settings' bytes. It becomes part of each walk, as the functions that it calls become part of it, and
// writes the core where it stands: so the core is not handed on through memory, and in the run, which lends it to each instruction, not put together anew.
#[inline(always)]
pub fn advance(k: &mut Core, fixed: &[u8; job::SETTINGS_BYTES], thread: u8, f: Operands)
    ensures { joined k.new (choices_in fixed.now) ≡ record_after (joined k.old (choices_in fixed.now)) thread f }
{
    if !rules::leaves_record(f) {
        let slot = job::slot_at(fixed, thread, rules::slot_number(f));
        let x = control::own_at(*k, thread);
        let own = rules::own_after(x, slot, f);
        let clear = rules::clear_by(f);
        let last = rules::last_after(x, k.last, f);
        control::set_core(k, thread, own, clear, last);
    }
}

#[tactic(auto, unfolding(control::specs::Halves::joined))]
pub fn hand_over(k: Core, file: File) -> Core
    ensures { (s : ℕ → Choice) → joined result s ≡ handed_over (joined k s) file }
{
    let banks = control::hand_over(banks_of(k, file));
    match file {
        File::A => Core { a: banks, ..k },
        File::B => Core { b: banks, ..k },
    }
}
