// The words that the classes share: nothing read; a rule alone; both banks.
ghost use Rattle.std.specs.Prelude.{◌≡◌, [], ◌∷◌, ℕ};
ghost use Rattle.control.specs.Halves.{Choice, joined};
ghost use Rattle.rules.specs.Vocabulary.{no_reads};
ghost use Rattle.rules.specs.Rules.{both_owned, ◌when◌, refused_if, verdict_answer, lowest_answer};

use crate::Reads;
use control::Core;
use word::Refusal;

pub(crate) fn no_reads() -> Reads
    ensures { result ≡ no_reads }
{
    let n = cells::no_span();
    Reads {
        a: n,
        b: n,
        dst: n,
        rega: n,
        regb: n,
    }
}

// One rule alone.
pub fn refused_if(bad: bool, refusal: Refusal) -> Result<(), Refusal>
    ensures verdict { result ≡ refused_if bad refusal }
    ensures number { verdict_answer result ≡ lowest_answer ((refusal when bad) ∷ []) }
{
    if bad {
        return Err(refusal);
    }
    Ok(())
}

// The address slots are any.
pub(crate) fn both_owned(k: Core) -> bool
    ensures { (s : ℕ → Choice) → result ≡ both_owned (joined k s) }
{
    let a = k.a;
    let b = k.b;
    control::matrix_owns(a) & control::matrix_owns(b)
}
