// SETRWC, INCRWC: their rule.
ghost use Rattle.std.specs.Prelude.{◌≡◌, [], ◌∷◌, leb};
ghost use Rattle.rules.specs.Rules.{◌when◌, refused_if, verdict_answer, lowest_answer};

use crate::vocabulary;
use word::Refusal;

// The mode must be 0.
pub fn judge_counters(mode: u32) -> Result<(), Refusal>
    ensures verdict { result ≡ refused_if (leb 1 mode) Refusal.UndefinedMode }
    ensures number { verdict_answer result ≡ lowest_answer ((Refusal.UndefinedMode when leb 1 mode) ∷ []) }
{
    vocabulary::refused_if(1 <= mode, Refusal::UndefinedMode)
}
