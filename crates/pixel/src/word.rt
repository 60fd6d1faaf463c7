// A pixel in one number of 32 bits. Four bytes that are read or written compile to one load or store of 32 bits, so
// that a loop over pixels is vectorized.
ghost use Rattle.std.specs.Prelude.{◌≡◌, ◌+◌, ◌*◌, ◌≤◌, length};
ghost use Rattle.format.specs.declared.Pixel.{Pixel};
ghost use Rattle.format.specs.Pixel.{equal};
ghost use Rattle.format.specs.Picture.{pixels};
ghost use Rattle.pixel.specs.Cells.{pixel_cells};
ghost use Rattle.pixel.specs.Word.{number, equal-laws};

use crate::cell::Cell;
use format::Pixel;
use std::marker::Model;

// Contracts see the pixel.
#[derive(Clone, Copy)]
pub struct Word {
    bits: u32,
}

impl Model for Word {
    ghost use Rattle.std.specs.Prelude.{◌^◌, ◌<◌};
    ghost use Rattle.format.specs.declared.Pixel.{Pixel};
    ghost use Rattle.pixel.specs.Word.{unword, number, number-unword};

    ghost Value = { Pixel };

    ghost view = { λ w. unword w.bits };

    ghost invariant = { λ w. w.bits < 2 ^ 32 };

    ghost inverse = { λ v. record { bits = number v } };

    ghost inverse_ok = { λ w below i. record { bits = number-unword w.bits below i } };
}

// Alike in all four bytes. Written out, since a derived `==` is that of two numbers, and definitions say `equal`.
impl PartialEq for Word {
    ghost eq = { equal };

    ghost laws = { equal-laws };

    fn eq(&self, other: &Word) -> bool {
        self.bits == other.bits
    }
}

impl From<[u8; 4]> for Word {
    ghost from_gives = { λ bytes w. w ≡ pixels bytes 0 };

    fn from(bytes: [u8; 4]) -> Word {
        Word {
            bits: u32::from_le_bytes(bytes),
        }
    }
}

impl From<Pixel> for Word {
    ghost from_gives = { λ v w. w ≡ v };

    fn from(v: Pixel) -> Word {
        Word::from([v.red, v.green, v.blue, v.alpha])
    }
}

impl From<Word> for [u8; 4] {
    ghost from_gives = { λ w bytes. w ≡ pixels bytes 0 };

    fn from(w: Word) -> [u8; 4] {
        w.bits.to_le_bytes()
    }
}

impl From<Word> for Pixel {
    ghost from_gives = { λ w v. v ≡ w };

    fn from(w: Word) -> Pixel {
        let [red, green, blue, alpha] = <[u8; 4]>::from(w);
        Pixel {
            red,
            green,
            blue,
            alpha,
        }
    }
}

impl Word {
    // Pixel i of the bytes xs.
    pub fn at(xs: &[u8], i: usize) -> Word
        requires { 4 * i + 4 ≤ length xs.now }
        ensures { result ≡ pixels xs.now i }
    {
        let j = 4 * i;
        Word::from([xs[j], xs[j + 1], xs[j + 2], xs[j + 3]])
    }

    pub fn number(self) -> u32
        ensures { result ≡ number self }
    {
        let Word { bits } = self;
        bits
    }
}

impl Cell for Word {
    ghost Value = { Pixel };

    ghost value = { λ w. w };

    ghost cells = { pixel_cells };

    fn put(self, xs: &mut [u8], i: usize) {
        let j = 4 * i;
        let [red, green, blue, alpha] = <[u8; 4]>::from(self);
        xs[j] = red;
        xs[j + 1] = green;
        xs[j + 2] = blue;
        xs[j + 3] = alpha;
    }
}
