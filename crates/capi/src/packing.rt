// Each answer packed into one number.
ghost use Rattle.std.specs.Prelude.{◌≡◌};
ghost use Rattle.word.specs.Refusal.{answer_of};
ghost use Rattle.precheck.specs.Check.{checked_answer};
ghost use Rattle.run.specs.Run.{outcome_answer};
ghost use Rattle.capi.specs.Packed.{packed};

use word::Refused;

// From here on an answer is a refusal.
const REFUSAL_BIT: u64 = 1 << 63;

// The refusal's number is counted in these; its place stands below.
const NUMBER_UNIT: u64 = 1 << 32;

// The bit of refusal 3 is counted in these, above the number.
const BIT_UNIT: u64 = 1 << 40;

pub(crate) fn pack_refusal(refused: Refused) -> u64
    ensures { result ≡ packed (answer_of refused.refusal refused.place) }
{
    let bit = u64::from(refused.refusal.bit().unwrap_or(0));
    let number = u64::from(refused.refusal.number());
    REFUSAL_BIT + bit * BIT_UNIT + number * NUMBER_UNIT + (refused.place as u64) % NUMBER_UNIT
}

// A passed pre-check and a finished run are packed alike.
pub(crate) fn pack(answer: Result<usize, Refused>) -> u64
    ensures passed { result ≡ packed (checked_answer answer) }
    ensures finished { result ≡ packed (outcome_answer answer) }
{
    match answer {
        Ok(count) => count as u64,
        Err(refused) => pack_refusal(refused),
    }
}
