// Count, then write: bytes one after the other into a lent buffer. Past its end nothing is written, and the places go on:
// on an empty buffer a writer answers how much room it needs. After the last place there is none, and the places stay there.
ghost use Rattle.std.specs.Prelude.{[], ◌∷◌, length};
ghost use Rattle.basics.specs.Bytes.{four_bytes};
ghost use Rattle.basics.specs.Writers.{Writes};

use crate::buffer::set_byte;

// A lent buffer, and the place that is written next.
#[derive(Drop)]
pub struct Writer<'a> {
    pub out: &'a mut [u8],
    pub at: usize,
}

impl<'a> Writer<'a> {
    pub fn byte(&mut self, b: u8)
        ensures { Writes 1 (b ∷ []) self.old self.new }
    {
        set_byte(self.out, self.at, b);
        self.at = self.at.saturating_add(1);
    }

    // The four bytes of a number, high byte first.
    pub fn four(&mut self, v: u32)
        ensures { Writes 4 (four_bytes v) self.old self.new }
    {
        self.word(&v.to_be_bytes());
    }

    pub fn word(&mut self, word: &[u8])
        ensures { Writes (length word.now) word.now self.old self.new }
    {
        for b in word {
            self.byte(*b);
        }
    }
}
