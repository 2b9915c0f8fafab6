// Which line comes next.
ghost use Rattle.std.specs.Prelude.{◌≡◌, ℕ, ◌+◌, ◌<◌};
ghost use Rattle.job.specs.Range.{OutputIn};
ghost use Rattle.lines.specs.Cursor.{output_of, line_count, what_at, next_line};

use crate::Cursor;
use cells::Width;
use job::{Cause, Kind, Output};

// What a line shows: a row of Dst with its width, or a register.
#[derive(Clone, Copy)]
pub(crate) enum What {
    Row { width: Width, row: u32 },
    Register { thread: u8, register: u8 },
}

// What the next line shows, and the cursor after it.
#[derive(Clone, Copy)]
pub(crate) struct Found {
    pub what: What,
    pub after: Cursor,
}

// The output that a field is, if it is one.
fn output_of(kind: Result<Kind, Cause>) -> Option<Output>
    ensures { result ≡ output_of kind }
{
    match kind {
        Ok(Kind::Prints(output)) => Some(output),
        _ => None,
    }
}

fn line_count(output: Output) -> u32
    ensures { result ≡ line_count output }
{
    match output {
        Output::Rows { width: _, rows } => rows.count,
        Output::Register {
            thread: _,
            register: _,
        } => 1,
    }
}

fn what_at(output: Output, line: u32) -> What
    requires { OutputIn output × (line < line_count output) }
    ensures { result ≡ what_at output line }
{
    match output {
        Output::Rows { width, rows } => What::Row {
            width,
            row: rows.first + line,
        },
        Output::Register { thread, register } => What::Register { thread, register },
    }
}

// The next line of the outputs.
pub(crate) fn next_line(job: &[u8], from: Cursor) -> Option<Found>
    ensures { result ≡ next_line job.now from }
{
    let mut line = from.line;
    for f in job::each_field_from(job, from.at) {
        if let Some(output) = output_of(f.kind) {
            let count = line_count(output);
            if line < count {
                let what = what_at(output, line);
                let after = Cursor {
                    answered: true,
                    at: f.place,
                    line: line + 1,
                };
                return Some(Found { what, after });
            }
            line -= count;
        }
    }
    None
}
