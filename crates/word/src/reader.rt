// The word reader.
ghost use Rattle.std.specs.Prelude.{◌≡◌};
ghost use Rattle.word.specs.Word.{read_word};
ghost use Rattle.word.specs.Fields.{read_answer, word_answer};

use crate::decode::operands_of;
use crate::table::{Entry, allows, find, lowest_stray};
use crate::{Operands, Refusal};

// The operands, or refusal 2, or refusal 3 with its bit.
pub fn read_word(w: u32) -> Result<Operands, Refusal>
    ensures operands { result ≡ read_word w }
    ensures numbers { read_answer result ≡ word_answer w }
{
    let Some(Entry(_, allowed, class)) = find((w >> 24) % 256) else {
        return Err(Refusal::UnknownOpcode);
    };
    if allows(allowed, w) {
        return Ok(operands_of(class, w));
    }
    Err(Refusal::UnnamedBit(lowest_stray(allowed, w)))
}
