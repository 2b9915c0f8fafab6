// A text that is written from its front. Nothing is put where it is full. By hand, and not by `write!`: no clause of std says when a
// write succeeds, and `next_text`, which promises the whole text, cannot fail.
ghost use Rattle.std.specs.Prelude.{◌≡◌, ◌∷◌, [], ℕ, ◌+◌, ◌%◌};
ghost use Rattle.cells.specs.Layout.{column_count};
ghost use Rattle.cells.specs.Places.{digits_of};
ghost use Rattle.lines.specs.Lines.{columns};
ghost use Rattle.lines.specs.Text.{empty_text, pushed, wrote, bytes_in, decimal, hex_digit, hex, values};

use crate::Text;
use cells::{COLUMNS, Width};

impl Text {
    pub(crate) fn new() -> Text
        ensures { result ≡ empty_text }
    {
        Text {
            bytes: [0; 160],
            len: 0,
        }
    }

    // The bytes that count.
    pub fn as_bytes(&self) -> &[u8]
        ensures { result.now ≡ bytes_in self.now }
    {
        &self.bytes[..self.len.min(160)]
    }

    pub(crate) fn push(&mut self, byte: u8)
        ensures { self.new ≡ pushed self.old byte }
    {
        let at = self.len;
        if at < 160 {
            self.bytes[at] = byte;
            self.len = at + 1;
        }
    }

    pub(crate) fn push_word(&mut self, word: &[u8])
        ensures { self.new ≡ wrote self.old word.now }
    {
        for &byte in word {
            self.push(byte);
        }
    }

    // In decimal, with no zero in front: what stands before the last digit, then the last digit.
    pub(crate) fn push_decimal(&mut self, n: usize)
        ensures { self.new ≡ wrote self.old (decimal n) }
    {
        if n < 10 {
            self.push(b'0' + n as u8);
        } else {
            self.push_decimal(n / 10);
            self.push(b'0' + (n % 10) as u8);
        }
    }

    // The last `digits` hexadecimal digits, zeros in front.
    fn push_hex(&mut self, digits: u32, v: u32)
        ensures { self.new ≡ wrote self.old (hex digits v) }
    {
        if digits > 0 {
            self.push_hex(digits - 1, v / 16);
            self.push(hex_digit(v));
        }
    }

    // A space and the digits.
    pub(crate) fn push_value(&mut self, digits: u32, v: u32)
        ensures { self.new ≡ wrote self.old (values digits (v ∷ [])) }
    {
        self.push(b' ');
        self.push_hex(digits, v);
    }

    // The sixteen values of a row: eight digits each, four in the BF16 mode.
    pub(crate) fn push_row(&mut self, width: Width, dst: &[u32], row: u32)
        ensures { self.new ≡ wrote self.old (values (digits_of width) (columns width dst.now row 0 column_count)) }
    {
        let digits = cells::digits(width);
        let first = row as usize * COLUMNS;
        for k in 0..COLUMNS {
            self.push_value(digits, cells::read(width, dst, first + k));
        }
    }
}

fn hex_digit(v: u32) -> u8
    ensures { result ≡ hex_digit (v % 16) }
{
    let d = (v % 16) as u8;
    if d < 10 { b'0' + d } else { b'a' - 10 + d }
}
