// How a program ended. The program says it on a descriptor of its own, and the caller that opened it gives it on as the exit
// status. Where nobody did, saying it does nothing.
ghost use Rattle.std.specs.Prelude.{◌≡◌};
ghost use Rattle.show.specs.Ends.{answer_end, told_end, status_of};

use std::fs::OpenOptions;
use std::io::{Eprint, Write};
use std::os::unix::fs::FileTypeExt;
use std::rt::Files;
use std::{fs, io};
use word::Refused;

#[derive(Clone, Copy)]
pub enum End {
    Done,
    Refused,
    Unread,
    Unwritten,
}

// The name of descriptor 3.
const STATUS_PATH: &str = "/proc/self/fd/3";

// By the answer of a run or of a pre-check.
pub fn answer_end(answer: Result<usize, Refused>) -> End
    ensures { result ≡ answer_end answer }
{
    match answer {
        Ok(_) => End::Done,
        Err(_) => End::Refused,
    }
}

// The end as the caller was told it.
pub fn told(end: End, written: io::Result<()>) -> End
    ensures { result ≡ told_end end written }
{
    match written {
        Ok(()) => end,
        Err(_) => End::Unwritten,
    }
}

// The exit status; 2, a wrong call, is not a program's to give.
impl From<End> for u8 {
    ghost from_gives = { λ end n. n ≡ status_of end };

    fn from(end: End) -> u8 {
        match end {
            End::Done => 0,
            End::Refused => 1,
            End::Unread => 3,
            End::Unwritten => 3,
        }
    }
}

// A complaint that cannot be written is passed over: nobody is left to be told.
fn complain<R: Eprint>(rt: &R, end: End) {
    let _ = match end {
        End::Done | End::Refused => Ok(()),
        End::Unread => rt.eprintln("the input cannot be read; nothing was run"),
        End::Unwritten => rt.eprintln(
            "the output cannot be written; what stands there is not whole",
        ),
    };
}

// The descriptor is reached by its name, which opens what stands there anew. That would also write to a file which the caller
// opened for reading alone, so the name's mode is asked first; and it would wait for the reader of a named pipe that nobody
// reads, so a pipe is opened for both. A socket cannot be reached in this way.
fn write_status<R: Files>(rt: &R, status: u8) -> io::Result<()> {
    if fs::symlink_metadata(rt, STATUS_PATH)?
        .permissions()
        .readonly()
    {
        return Ok(());
    }
    let is_pipe = fs::metadata(rt, STATUS_PATH)?.file_type().is_fifo();
    let mut file = OpenOptions::new()
        .read(is_pipe)
        .append(true)
        .open(rt, STATUS_PATH)?;
    writeln!(file, "{status}")
}

// The last thing that a program does: the status as one line on its descriptor, and what failed on standard error.
pub fn say<R: Files + Eprint>(rt: &R, end: End) {
    complain(rt, end);
    let _ = write_status(rt, u8::from(end));
}
