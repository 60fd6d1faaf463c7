// What pixels of a block gain or lose. Signed bytes are taken modulo 2^13 instead, since a loop over unsigned numbers
// is vectorized.
ghost use Rattle.std.specs.Prelude.{◌≡◌};
ghost use Rattle.format.specs.Byte.{delta};

use format::Pixel;
use std::marker::Model;

// A signed byte modulo 2^13. Contracts see the byte.
#[derive(Clone, Copy)]
pub struct Factor {
    bits: u32,
}

impl Model for Factor {
    ghost use Rattle.std.specs.Prelude.{◌≡◌, ℕ, ◌%◌};
    ghost use Rattle.color.specs.Factor.{factor};

    ghost Value = { ℕ };

    ghost view = { λ m. m.bits % 256 };

    ghost invariant = { λ m. factor (m.bits % 256) ≡ m.bits };

    ghost inverse = { λ t. record { bits = factor t } };

    ghost inverse_ok = { λ m whole i. record { bits = whole i } };
}

impl From<u8> for Factor {
    ghost from_gives = { λ t m. m ≡ t };

    // In 32 bits: from bytes, two factors share a register, and what multiplies by them is slower.
    fn from(t: u8) -> Factor {
        let t = t as u32;
        Factor {
            bits: t % 128 + t / 128 * 8064,
        }
    }
}

impl Factor {
    // With u - 128 for the signed byte c, the product is m * u - 128 * m. 2^20 keeps it from falling below 0 and is
    // lost modulo 256, as 2^13 / 32 is 256.
    pub fn delta(self, c: u8) -> u8
        ensures { result ≡ delta self c }
    {
        let m = self.bits;
        let u = (c as u32 + 128) % 256;
        ((m * u + (1048576 - 128 * m)) / 32 % 256) as u8
    }
}

// Those of a block's data pixel.
#[derive(Clone, Copy)]
pub struct Factors {
    pub green_to_red: Factor,
    pub green_to_blue: Factor,
    pub red_to_blue: Factor,
}

impl From<Pixel> for Factors {
    ghost use Rattle.std.specs.Prelude.{◌≡◌};
    ghost use Rattle.color.specs.Factors.{factors};

    ghost from_gives = { λ e f. f ≡ factors e };

    fn from(e: Pixel) -> Factors {
        Factors {
            green_to_red: Factor::from(e.blue),
            green_to_blue: Factor::from(e.green),
            red_to_blue: Factor::from(e.red),
        }
    }
}
