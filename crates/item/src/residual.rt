// What a predictor makes of items that are made or missing.
ghost use Rattle.std.specs.Prelude.{◌≡◌};
ghost use Rattle.item.specs.Made.{residual_made};

use format::Pixel;
use pixel::pixel::subtract_pixels;
use predictor::mode::predict_pixel;
use predictor::neighbors::Neighbors;

// The residual of an item by its neighbors.
#[tactic(auto, unfolding(crate::specs::Made::residual_made))]
pub fn residual_of(mode: u8, v: Option<Pixel>, n: Neighbors<Option<Pixel>>) -> Option<Pixel>
    ensures { result ≡ residual_made mode v n.l n.t n.tr n.tl }
{
    let v = v?;
    let n = Neighbors {
        l: n.l?,
        t: n.t?,
        tr: n.tr?,
        tl: n.tl?,
    };
    Some(subtract_pixels(v, predict_pixel(mode, n)))
}
