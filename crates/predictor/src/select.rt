// Mode 11 rebuilt in place. Which neighbor the next pixel takes is worked out for both values that this pixel can have,
// so that the sum of distances does not depend on this pixel's choice, and no choice is a branch.
ghost use Rattle.std.specs.Prelude.{◌≡◌, ◌+◌, ◌-◌, ◌*◌, ◌≤◌, length, nat_lt, if◌then◌else◌};
ghost use Rattle.format.specs.Byte.{add};
ghost use Rattle.format.specs.Pixel.{each};
ghost use Rattle.format.specs.Picture.{pixels};
ghost use Rattle.pixel.specs.Distance.{between};
ghost use Rattle.predictor.specs.Row.{around, segment_gained, left_nearer};

use crate::segment::Segment;
use format::Pixel;
use pixel::choice::pick;
use pixel::pixel::{add_pixels, pick_pixel, pixel_at, pixel_distance, put_pixel};

// A pixel that is rebuilt, and whether the next one takes its left neighbor.
#[derive(Clone, Copy)]
struct Turn {
    pixel: Pixel,
    near: bool,
}

// `next` is the top neighbor of the next pixel, whose top-left one is t.
fn choose(residual: Pixel, l: Pixel, t: Pixel, next: Pixel, near: bool) -> Turn
    ensures pixel { result.pixel ≡ each add residual (if near then l else t) }
    ensures near { result.near ≡ nat_lt (between next t) (between result.pixel t) }
{
    let x = add_pixels(residual, l);
    let y = add_pixels(residual, t);
    let d = pixel_distance(next, t);
    let x_near = d < pixel_distance(x, t);
    let y_near = d < pixel_distance(y, t);
    Turn {
        pixel: pick_pixel(near, x, y),
        near: pick(near, x_near, y_near),
    }
}

fn left_nearer(rows: &[u8], w: usize, i: usize) -> bool
    requires { (1 ≤ w) × (w + 1 ≤ i) × (4 * i ≤ length rows.now) }
    ensures { result ≡ left_nearer w (pixels rows.now) i }
{
    let tl = pixel_at(rows, i - w - 1);
    pixel_distance(pixel_at(rows, i - w), tl) < pixel_distance(pixel_at(rows, i - 1), tl)
}

// A loop of its own, since it carries the choice beside the left neighbor. `replace_left` over whatever is carried is
// no plainer: its contract would quantify over what that says of the buffer, for this caller alone.
pub fn add_selected(rows: &mut [u8], segment: Segment)
    requires { length rows.old ≡ 8 * segment.width }
    ensures { rows.new ≡ segment_gained 11 segment.width segment.from segment.to rows.old }
{
    let w = segment.width;
    let from = w + segment.from;
    let to = w + segment.to;
    let mut left = pixel_at(rows, from - 1);
    let mut near = left_nearer(rows, w, from);
    for i in from..to {
        let t = pixel_at(rows, i - w);
        let next = pixel_at(rows, i - w + 1);
        let turn = choose(pixel_at(rows, i), left, t, next, near);
        left = turn.pixel;
        near = turn.near;
        put_pixel(rows, i, left);
    }
}
