// ZEROSRC: the rows that it fills.
ghost use Rattle.std.specs.Prelude.{◌≡◌};
ghost use Rattle.rules.specs.ZeroSrc.{filled_in, filled_if};

use cells::Span;
use control::Banks;
use word::ZeroSrc;

// Of a chosen file: both banks, or the one at the unpackers' pointer.
fn filled_in(b: Banks, z: ZeroSrc) -> Span
    ensures { result ≡ filled_in b z }
{
    if z.both {
        return Span {
            first: 0,
            count: cells::SRC_ROWS,
        };
    }
    cells::bank_span(b.unpack)
}

// Of a file by its banks: none where it is not chosen.
pub fn filled_if(chosen: bool, b: Banks, z: ZeroSrc) -> Span
    ensures { result ≡ filled_if chosen b z }
{
    if chosen {
        filled_in(b, z)
    } else {
        cells::no_span()
    }
}
