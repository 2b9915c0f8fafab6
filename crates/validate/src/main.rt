// Reads a job from standard input and prints whether the pre-check passes it; it runs nothing.
#![tactic(auto)]

ghost use Rattle.std.specs.Prelude.{◌≡◌, ◌≢◌};
ghost use Rattle.std.specs.Io.KnownBytes.{Appends};
ghost use Rattle.precheck.specs.Check.{precheck_of};
ghost use Rattle.lines.specs.Printed.{checked_text};
ghost use Rattle.show.specs.Ends.{answer_end};
ghost use Rattle.show.specs.declared.end.End.TheVariants as End;

use show::End;
use std::io::Write;

// Any end but `Unwritten` is that of the pre-check, and then its text was written.
fn check_job<W: Write>(out: &mut W, job: &[u8]) -> End
    ensures { result ≢ End.Unwritten → (result ≡ answer_end (precheck_of job.now))
        × Appends (W.contents out.old) (W.contents out.new) (checked_text (precheck_of job.now)) }
{
    let checked = precheck::precheck(job);
    let written = show::put(out, lines::checked_text(checked));
    show::told(show::answer_end(checked), written)
}

fn main(rt: HostRuntime) {
    let mut buffer = [0u8; cells::JOB_BYTES + 1];
    let end = match show::read(&mut rt.stdin(), &mut buffer) {
        Ok(n) => check_job(&mut rt.stdout(), &buffer[..n]),
        Err(_) => End::Unread,
    };
    show::say(&rt, end);
}
