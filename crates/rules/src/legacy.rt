// CONV3S1, CONV3S2, MPOOL3S1, APOOL3S1, MPOOL3S2, APOOL3S2: their rule.
ghost use Rattle.std.specs.Prelude.{◌≡◌, not, [], ◌∷◌, ℕ};
ghost use Rattle.control.specs.Halves.{Choice, joined};
ghost use Rattle.rules.specs.Rules.{both_owned, ◌when◌, refused_if, verdict_answer, lowest_answer};

use crate::vocabulary;
use control::Core;
use word::Refusal;

// Both banks must be the matrix unit's. The address slots are any.
pub fn judge_legacy(k: Core) -> Result<(), Refusal>
    ensures verdict { (s : ℕ → Choice) → result ≡ refused_if (not (both_owned (joined k s))) Refusal.BankOwner }
    ensures number { (s : ℕ → Choice) → verdict_answer result ≡ lowest_answer ((Refusal.BankOwner when not (both_owned (joined k s))) ∷ []) }
{
    vocabulary::refused_if(!vocabulary::both_owned(k), Refusal::BankOwner)
}
