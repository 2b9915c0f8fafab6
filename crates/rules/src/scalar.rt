// BITWOPDMAREG, SHIFTDMAREG, CMPDMAREG: their rule.
ghost use Rattle.std.specs.Prelude.{◌≡◌, [], ◌∷◌};
ghost use Rattle.word.specs.declared.Operands.TheVariants as operands;
ghost use Rattle.rules.specs.Scalar.{scalar_modes};
ghost use Rattle.rules.specs.Rules.{undefined_mode, ◌when◌, refused_if, verdict_answer, lowest_answer};

use crate::vocabulary;
use word::{Operation, Refusal, ScalarWord};

fn scalar_modes(op: Operation) -> u32
    ensures { result ≡ scalar_modes op }
{
    match op {
        Operation::Bitwise => 3,
        Operation::Shift => 2,
        Operation::Compare => 3,
    }
}

pub fn judge_scalar(w: ScalarWord) -> Result<(), Refusal>
    ensures verdict { result ≡ refused_if (undefined_mode (operands.Scalar w)) Refusal.UndefinedMode }
    ensures number { verdict_answer result ≡ lowest_answer ((Refusal.UndefinedMode when undefined_mode (operands.Scalar w)) ∷ []) }
{
    let s = w.fields();
    let op = s.op;
    vocabulary::refused_if(scalar_modes(op) <= s.mode, Refusal::UndefinedMode)
}
