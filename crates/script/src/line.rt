ghost use Rattle.std.specs.Prelude.{◌≡◌, replicate};
ghost use Rattle.script.specs.Digits.{digits};
ghost use Rattle.script.specs.Lines.{text};

use crate::digits::{Base, write_number};
use crate::numbers::Numbers;

/// A line of the listing: a letter and its numbers.
#[derive(Clone, Copy)]
pub struct Line {
    // The character itself: an enum would be turned back into it, and whoever makes a line could no longer name every
    // letter.
    pub letter: u8,
    pub numbers: Numbers,
    pub hops: u32,
}

impl Line {
    /// The sixteen characters of the listing that say it.
    // No `Display`, which writes to a stream that may fail and says less; no `From`, by which sixteen bytes would not be
    // named a text.
    pub fn text(&self) -> [u8; 16]
        ensures { result ≡ text self.now }
    {
        let Numbers { two, three, eight } = self.numbers;
        let mut text = *b"000000000000000\n";
        text[0] = self.letter;
        write_number(&mut text[1..3], Base::Ten, two);
        write_number(&mut text[3..6], Base::Ten, three);
        write_eight(&mut text[6..14], eight);
        write_number(&mut text[14..15], Base::Sixteen, self.hops);
        text
    }
}

/// Writes eight digits over zeros. Most numbers in a listing are zero, and need nothing.
fn write_eight(out: &mut [u8], n: u32)
    requires { out.old ≡ replicate 8 48 }
    ensures { out.new ≡ digits 16 8 n }
{
    if n != 0 {
        write_number(out, Base::Sixteen, n);
    }
}
