// The refusals' numbers, and the bit of refusal 3.
ghost use Rattle.std.specs.Prelude.{◌≡◌};
ghost use Rattle.word.specs.Refusal.{number_of, bit_of, refused_at};

use crate::{Refusal, Refused};

impl Refusal {
    pub fn at(self, place: usize) -> Refused
        ensures { result ≡ refused_at self place }
    {
        Refused {
            refusal: self,
            place,
        }
    }

    // The refusal's number in the table of document 01.
    pub fn number(self) -> u8
        ensures { result ≡ number_of self }
    {
        match self {
            Refusal::StateLength => 9,
            Refusal::Shape => 1,
            Refusal::UnknownOpcode => 2,
            Refusal::UnnamedBit(_) => 3,
            Refusal::UndefinedMode => 4,
            Refusal::UnmodelledSettings => 5,
            Refusal::BankOwner => 6,
            Refusal::DstRow => 7,
            Refusal::UnsetRead => 8,
        }
    }

    // The bit of refusal 3, the lowest that is 1 and not named; no other has one.
    pub fn bit(self) -> Option<u8>
        ensures { result ≡ bit_of self }
    {
        match self {
            Refusal::UnnamedBit(bit) => Some(bit),
            _ => None,
        }
    }
}
