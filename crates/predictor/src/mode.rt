// What a mode predicts of a pixel.
ghost use Rattle.std.specs.Prelude.{◌≡◌};
ghost use Rattle.format.specs.Predictor.{predict};

use crate::bytes::predict_byte;
use crate::neighbors::Neighbors;
use format::Pixel;
use pixel::pixel::{BLACK, select};

// Inlined where the mode is a constant. The channels are written out as in `pixel::pixel`: by a closure for each
// channel, the loops of the modes take longer.
#[inline(always)]
#[tactic(auto, unfolding(format::specs::Predictor::predict))]
pub fn predict_pixel(mode: u8, n: Neighbors<Pixel>) -> Pixel
    ensures { result ≡ predict mode n.l n.t n.tr n.tl }
{
    match mode {
        0 => BLACK,
        11 => select(n.l, n.t, n.tl),
        _ => Pixel {
            red: predict_byte(mode, n.map(|v| v.red)),
            green: predict_byte(mode, n.map(|v| v.green)),
            blue: predict_byte(mode, n.map(|v| v.blue)),
            alpha: predict_byte(mode, n.map(|v| v.alpha)),
        },
    }
}
