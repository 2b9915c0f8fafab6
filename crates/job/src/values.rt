// The value of a load register field.
ghost use Rattle.std.specs.Prelude.{◌≡◌};
ghost use Rattle.job.specs.Kinds.{register_value};

use crate::bytes::number_at;

// By its payload; a byte past the end is 0.
pub fn register_value(p: &[u8]) -> u32
    ensures { result ≡ register_value p.now }
{
    number_at(p, 2)
}
