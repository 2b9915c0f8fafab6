// Reading the input to its end, with a read that fails told from the end.
ghost use Rattle.std.specs.Prelude.{◌≡◌, ◌<◌, IfOk, length, take};
ghost use Rattle.std.specs.Io.KnownBytes.{Consumes, IsAtEnd};
ghost use Rattle.show.specs.Input.{IsPrefixLen, read_len};

use std::io::Read;

// A read failed, after so many bytes.
#[derive(Clone, Copy)]
pub struct Unread {
    pub len: usize,
}

// Reads until the space is full, the input ends or a read fails. What was read stands at the front of the space.
pub fn read<R: Read>(from: &mut R, space: &mut [u8]) -> Result<usize, Unread>
    ensures bound { IsPrefixLen (read_len result) space.new }
    ensures taken { Consumes (R.remaining from.old) (R.remaining from.new) (take (read_len result) space.new) }
    ensures ended { IfOk result (λ n. n < length space.new → IsAtEnd (R.remaining from.new)) }
{
    // No index: a read gives as many bytes as it likes.
    let mut done = 0;
    while done < space.len() {
        match from.read(&mut space[done..]) {
            Ok(0) => return Ok(done),
            Ok(more) => done += more,
            Err(_) => return Err(Unread { len: done }),
        }
    }
    Ok(done)
}
