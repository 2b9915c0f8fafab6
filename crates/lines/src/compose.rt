// The texts of a line and of an answer.
ghost use Rattle.std.specs.Prelude.{◌≡◌, ◌≤◌, length};
ghost use Rattle.word.specs.Refusal.{number_of, bit_of};
ghost use Rattle.lines.specs.Text.{wrote, made, Holds, text_of, line_of, count_text, bit_text, refused_text};

use crate::Text;
use crate::found::What;
use cells::Width;
use word::{Refusal, Refused};

// `D 7 00000000 ..`, in the BF16 mode `D 7 0000 ..`, or `G 0 3 00000009`, from the final state.
pub(crate) fn line_text(what: What, dst: &[u32], registers: &[u32]) -> Text
    ensures whole { result ≡ made (text_of (line_of what dst.now registers.now)) }
    ensures first { Holds result (text_of (line_of what dst.now registers.now)) }
{
    match what {
        What::Row { width, row } => {
            let mut t = Text::new();
            t.push_word(b"D ");
            t.push_decimal(row as usize);
            t.push_row(width, dst, row);
            t.push(b'\n');
            t
        }
        What::Register { thread, register } => {
            let mut t = Text::new();
            t.push_word(b"G ");
            t.push_decimal(thread as usize);
            t.push(b' ');
            t.push_decimal(register as usize);
            let at = cells::register_at(thread, register) as usize;
            t.push_value(8, cells::read(Width::Bits32, registers, at));
            t.push(b'\n');
            t
        }
    }
}

// A word and a count: `finished 1`, `passed 1`.
pub(crate) fn count_text(word: &[u8], count: usize) -> Text
    requires { length word.now ≤ 20 }
    ensures whole { result ≡ made (count_text word.now count) }
    ensures first { Holds result (count_text word.now count) }
{
    let mut t = Text::new();
    t.push_word(word);
    t.push_decimal(count);
    t.push(b'\n');
    t
}

// ` bit 16` of a refusal 3; of any other number nothing.
fn push_bit(t: &mut Text, refusal: Refusal)
    ensures wrote { t.new ≡ wrote t.old (bit_text (bit_of refusal)) }
    ensures short { length (bit_text (bit_of refusal)) ≤ 40 }
{
    if let Some(bit) = refusal.bit() {
        t.push_word(b" bit ");
        t.push_decimal(usize::from(bit));
    }
}

// `refused 8 at 180`, or `refused 3 at 172 bit 16`.
pub(crate) fn refused_text(refused: Refused) -> Text
    ensures whole { result ≡ made (refused_text (number_of refused.refusal) refused.place (bit_of refused.refusal)) }
    ensures first { Holds result (refused_text (number_of refused.refusal) refused.place (bit_of refused.refusal)) }
{
    let mut t = Text::new();
    t.push_word(b"refused ");
    t.push_decimal(usize::from(refused.refusal.number()));
    t.push_word(b" at ");
    t.push_decimal(refused.place);
    push_bit(&mut t, refused.refusal);
    t.push(b'\n');
    t
}
