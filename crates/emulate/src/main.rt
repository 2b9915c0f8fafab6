// Reads a job from standard input, runs it on files of zeros, and prints its count and its lines, or the refusal.
#![tactic(auto)]

ghost use Rattle.std.specs.Prelude.{◌≡◌, ◌≢◌};
ghost use Rattle.std.specs.Io.KnownBytes.{Appends};
ghost use Rattle.run.specs.Run.{run_of};
ghost use Rattle.show.specs.Bytes.{bytes_printed, zeros};
ghost use Rattle.show.specs.Ends.{answer_end};
ghost use Rattle.show.specs.declared.end.End.TheVariants as End;

use show::End;
use std::io::Write;

// Any end but `Unwritten` is that of the run, and then all that it prints was written.
fn run_job<W: Write>(out: &mut W, job: &[u8]) -> End
    ensures { result ≢ End.Unwritten → (result ≡ answer_end (run_of job.now zeros).outcome)
        × Appends (W.contents out.old) (W.contents out.new) (bytes_printed job.now) }
{
    let (outcome, written) = show::run_on_zeros(out, job);
    show::told(show::answer_end(outcome), written)
}

fn main(rt: HostRuntime) {
    let mut buffer = [0u8; cells::JOB_BYTES + 1];
    let end = match show::read(&mut rt.stdin(), &mut buffer) {
        Ok(n) => run_job(&mut rt.stdout(), &buffer[..n]),
        Err(_) => End::Unread,
    };
    show::say(&rt, end);
}
