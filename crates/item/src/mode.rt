// The mode that predicts a place.
ghost use Rattle.std.specs.Prelude.{◌≡◌, ◌<◌};
ghost use Rattle.format.specs.Picture.{pixels};
ghost use Rattle.item.specs.Neighbors.{mode_at};

use crate::place::Place;
use pixel::block::Blocks;

// On a border it is 0, 1 or 2, whatever the block's mode.
#[tactic(auto, unfolding(crate::specs::Neighbors::mode_at))]
pub fn mode_at(blocks: &Blocks, at: Place) -> u8
    requires { (at.x < blocks.now.width) × (at.y < blocks.now.height) }
    ensures { result ≡ mode_at blocks.now.width blocks.now.bits (pixels blocks.now.bytes.now) at.x at.y }
{
    match (at.x, at.y) {
        (0, 0) => 0,
        (_, 0) => 1,
        (0, _) => 2,
        (x, y) => blocks.at(x, y).green,
    }
}
