// A row off the first: `rows` is the part of the picture that holds the row above and then the row.
ghost use Rattle.std.specs.Prelude.{◌≡◌, ◌+◌, ◌-◌, ◌*◌, ◌<◌, ◌≤◌, length};
ghost use Rattle.predictor.specs.Row.{front_gained, front_lost};

use crate::residual::Residuals;
use crate::segment::{Segment, rebuild_segment};
use pixel::block::BlockRow;
use pixel::pixel::{add_pixels, pixel_at, put_pixel, subtract_pixels};

// Column 0 is predicted as T, the others by the modes of their blocks. A row of one column is done by then: to find its
// block's segment, which is empty, takes longer than to rebuild it.
pub fn rebuild_row(rows: &mut [u8], blocks: &BlockRow)
    requires { length rows.old ≡ 8 * blocks.now.width }
    ensures { rows.new
        ≡ front_gained blocks.now.width blocks.now.bits blocks.now.bytes.now blocks.now.width rows.old }
{
    let w = blocks.width;
    let first = add_pixels(pixel_at(rows, w), pixel_at(rows, 0));
    put_pixel(rows, w, first);
    if w == 1 {
        return;
    }
    for block in 0..blocks.count() {
        rebuild_segment(rows, Segment::of(blocks, block));
    }
}

// The row's residuals, into `out`. One loop for both rows would take a closure that changes its buffer, and a contract
// that lets the caller say what the buffer keeps from call to call is refused.
pub fn store_row(rows: &[u8], out: &mut [u8], blocks: &BlockRow)
    requires { (length rows.now ≡ 8 * blocks.now.width) × (length out.old ≡ 4 * blocks.now.width) }
    ensures { out.new
        ≡ front_lost blocks.now.width blocks.now.bits blocks.now.bytes.now blocks.now.width rows.now out.old }
{
    let w = blocks.width;
    let first = subtract_pixels(pixel_at(rows, w), pixel_at(rows, 0));
    put_pixel(out, 0, first);
    if w == 1 {
        return;
    }
    for block in 0..blocks.count() {
        let segment = Segment::of(blocks, block);
        Residuals { rows, segment }.store(out);
    }
}
