// One point of a picture retouched, with the strip kept as the picture stored.
ghost use Rattle.std.specs.Prelude.{◌≡◌};
ghost use Rattle.format.specs.Calls.{retouch_answer, retouch_picture, retouch_strip};
ghost use Rattle.retouch.specs.Changes.{retouched};
ghost use Rattle.retouch.specs.Decided.{Retouchable, answer_by, picture_left, strip_left};

use crate::changes::Changes;
use crate::decide::decide;
use chain::open;
use chain::record::ValidChain;
use format::{Pixel, Refusal};
use item::painted::{Painted, Point};
use item::place::Place;
use pixel::pixel::put_pixel;

// A valid chain whose buffers have room, and a point inside: what is decided is written, unless it is a refusal.
fn retouch_valid(
    opened: &ValidChain,
    picture: &mut [u8],
    strip: &mut [u8],
    point: Point,
) -> Result<Changes, Refusal>
    requires { Retouchable opened.now.chain picture.old strip.old point }
    ensures value { retouched result ≡ answer_by opened.now picture.old strip.old point }
    ensures picture_after { picture.new ≡ picture_left opened.now picture.old point (retouched result) }
    ensures strip_after { strip.new ≡ strip_left opened.now picture.old strip.old point (retouched result) }
{
    let painted = Painted {
        opened: *opened,
        picture: &*picture,
        point,
    };
    let decision = decide(&painted, strip)?;
    put_pixel(picture, point.index, point.color);
    decision.remade.write(&mut strip[..4 * opened.records()]);
    Ok(decision.changes)
}

// Tests 1 to 9 and 22, then the pixel and its records.
pub fn retouch(
    width: usize,
    height: usize,
    chain: &[u8],
    data: &[u8],
    picture: &mut [u8],
    strip: &mut [u8],
    at: Place,
    color: Pixel,
) -> Result<Changes, Refusal>
    ensures value { retouched result ≡ retouch_answer width height chain.now «data».now
        picture.old strip.old at.x at.y color }
    ensures picture_after { picture.new ≡ retouch_picture width height chain.now «data».now
        picture.old strip.old at.x at.y color }
    ensures strip_after { strip.new ≡ retouch_strip width height chain.now «data».now
        picture.old strip.old at.x at.y color }
{
    let opened = open(width, height, chain, data, picture, strip)?;
    if width <= at.x || height <= at.y {
        return Err(Refusal::Outside);
    }
    let point = Point {
        index: at.index(opened.chain.width),
        color,
    };
    retouch_valid(&opened, picture, strip, point)
}
