// The texts of a run as an iterator.
ghost use Rattle.std.specs.Iterator.{YieldsFirstBy, item_count};
ghost use Rattle.std.specs.Prelude.{◌≡◌, List, ℕ, map};
ghost use Rattle.cells.specs.State.{state};
ghost use Rattle.lines.specs.Text.{bytes_in};
ghost use Rattle.lines.specs.Printed.{printed_by, printed_text};
ghost use Rattle.lines.specs.Left.{texts_left};

use crate::{Cursor, Text, next_text, start};
use word::Refused;

// What a run with this outcome has still to print, from the cursor on.
#[derive(Clone, Copy)]
pub struct Texts<'a> {
    job: &'a [u8],
    outcome: Result<usize, Refused>,
    dst: &'a [u32],
    registers: &'a [u32],
    cursor: Cursor,
}

impl<'a> Texts<'a> {
    // All texts of a run, in their order. Lines read the final Dst and registers, and nothing turns on SrcA and SrcB, here a and b.
    pub fn new(
        job: &'a [u8],
        outcome: Result<usize, Refused>,
        dst: &'a [u32],
        registers: &'a [u32],
    ) -> Texts<'a>
        ensures { (a b : List ℕ) → texts_left result
            ≡ map printed_text (printed_by job.now outcome (state a b dst.now registers.now)) }
    {
        Texts {
            job,
            outcome,
            dst,
            registers,
            cursor: start(),
        }
    }
}

impl<'a> Iterator for Texts<'a> {
    type Item = Text;

    ghost next_gives = { YieldsFirstBy bytes_in texts_left };

    ghost remaining = { item_count texts_left };

    fn next(&mut self) -> Option<Text> {
        let found = next_text(
            self.job,
            self.outcome,
            self.cursor,
            self.dst,
            self.registers,
        )?;
        self.cursor = found.after;
        Some(found.text)
    }
}
