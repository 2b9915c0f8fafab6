// All that a run prints, one text at a time: its answer and, of a finished job, its lines. A program only loops and writes.
#![tactic(auto)]

mod compose;
mod found;
mod iterator;
mod write;

ghost use Rattle.std.specs.Prelude.{◌≡◌, true, false, List, ℕ, Ok};
ghost use Rattle.cells.specs.State.{state};
ghost use Rattle.lines.specs.Text.{made, Holds};
ghost use Rattle.lines.specs.Printed.{checked_text};
ghost use Rattle.lines.specs.Cursor.{start_cursor, answered_cursor, next_line, line_next, next_of, Gives};

use compose::{count_text, line_text, refused_text};
use found::next_line;
pub use iterator::Texts;
use word::Refused;

// The first `len` bytes count. A fixed array, as nothing here takes the heap; `next_of`, which `next_text` promises, names both.
#[derive(Clone, Copy)]
pub struct Text {
    pub bytes: [u8; 160],
    pub len: usize,
}

// Whether the answer was read; then a field's place, and how many of the lines from there on were read.
#[derive(Clone, Copy)]
pub struct Cursor {
    pub answered: bool,
    pub at: usize,
    pub line: u32,
}

// A text and the cursor after it.
#[derive(Clone, Copy)]
pub struct Next {
    pub text: Text,
    pub after: Cursor,
}

pub fn start() -> Cursor
    ensures { result ≡ start_cursor }
{
    Cursor {
        answered: false,
        at: 0,
        line: 0,
    }
}

// The next text of what a run with this outcome prints, if any is left. Lines read the final Dst and registers.
pub fn next_text(
    job: &[u8],
    outcome: Result<usize, Refused>,
    from: Cursor,
    dst: &[u32],
    registers: &[u32],
) -> Option<Next>
    ensures whole { result ≡ next_of job.now outcome from dst.now registers.now }
    ensures given { (a b : List ℕ) → Gives job.now outcome (state a b dst.now registers.now) from result }
{
    match outcome {
        Ok(count) => {
            if from.answered {
                return line_after(job, from, dst, registers);
            }
            Some(answer(count_text(b"finished ", count)))
        }
        Err(refused) => {
            if from.answered {
                return None;
            }
            Some(answer(refused_text(refused)))
        }
    }
}

// `passed 1`, or the refusal: all that a pre-check prints.
pub fn checked_text(checked: Result<usize, Refused>) -> Text
    ensures whole { result ≡ made (checked_text checked) }
    ensures first { Holds result (checked_text checked) }
{
    match checked {
        Ok(count) => count_text(b"passed ", count),
        Err(refused) => refused_text(refused),
    }
}

// The answer's text; the lines come after it.
fn answer(text: Text) -> Next
    ensures { result ≡ record { text = text; after = answered_cursor } }
{
    let after = Cursor {
        answered: true,
        at: 0,
        line: 0,
    };
    Next { text, after }
}

fn line_after(job: &[u8], from: Cursor, dst: &[u32], registers: &[u32]) -> Option<Next>
    ensures whole { result ≡ line_next (next_line job.now from) dst.now registers.now }
    ensures given { from.answered ≡ true → (n : ℕ) (a b : List ℕ)
        → Gives job.now (Ok n) (state a b dst.now registers.now) from result }
{
    let found = next_line(job, from)?;
    Some(Next {
        text: line_text(found.what, dst, registers),
        after: found.after,
    })
}
