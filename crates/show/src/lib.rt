// What the programs do around the proved work: they read the input, run it, write texts, and say how they ended.
#![tactic(auto)]

mod end;
mod input;

ghost use Rattle.std.specs.Prelude.{◌≡◌, ◌≤◌, List, ℕ, OnOk, length};
ghost use Rattle.std.specs.Io.KnownBytes.{Appends};
ghost use Rattle.cells.specs.State.{state};
ghost use Rattle.run.specs.Run.{run_of};
ghost use Rattle.lines.specs.Text.{bytes_in};
ghost use Rattle.lines.specs.Printed.{printed_by};
ghost use Rattle.show.specs.Bytes.{bytes_of, bytes_printed, zeros};

pub use end::{End, answer_end, say, told};
pub use input::{Unread, read};
use lines::{Text, Texts};
use std::io;
use std::io::Write;
use word::Refused;

// Where it succeeds, the text stands after what the writer held. A text that claims more bytes than it has is refused, and nothing is written.
pub fn put<W: Write>(out: &mut W, t: Text) -> io::Result<()>
    ensures written { OnOk result (Appends (W.contents out.old) (W.contents out.new) (bytes_in t)) }
    ensures whole { OnOk result (t.len ≤ length t.bytes) }
{
    if t.bytes.len() < t.len {
        return Err(io::ErrorKind::InvalidInput.into());
    }
    out.write_all(t.as_bytes())
}

// All texts of a run, in their order. Nothing is written after a write that failed. What is printed does not turn on SrcA and
// SrcB, which the clause calls a and b.
pub fn put_run<W: Write>(
    out: &mut W,
    job: &[u8],
    outcome: Result<usize, Refused>,
    dst: &[u32],
    registers: &[u32],
) -> io::Result<()>
    ensures { (a b : List ℕ) → OnOk result (Appends (W.contents out.old) (W.contents out.new)
        (bytes_of (printed_by job.now outcome (state a b dst.now registers.now)))) }
{
    for text in Texts::new(job, outcome, dst, registers) {
        put(out, text)?;
    }
    Ok(())
}

// Runs a job on files of zeros and writes all that it prints: the run's outcome, and whether all was written.
pub fn run_on_zeros<W: Write>(out: &mut W, job: &[u8]) -> (Result<usize, Refused>, io::Result<()>)
    ensures outcome { result.0 ≡ (run_of job.now zeros).outcome }
    ensures written { OnOk result.1 (Appends (W.contents out.old) (W.contents out.new) (bytes_printed job.now)) }
{
    let mut srca = [0u32; cells::SRC_NUMBERS];
    let mut srcb = [0u32; cells::SRC_NUMBERS];
    let mut dst = [0u32; cells::DST_NUMBERS];
    let mut registers = [0u32; cells::REGISTERS];
    let outcome = run::run(job, &mut srca, &mut srcb, &mut dst, &mut registers);
    let written = put_run(out, job, outcome, &dst, &registers);
    (outcome, written)
}
