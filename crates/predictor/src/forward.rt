// A row's pixels stored as residuals, into a buffer of its own.
ghost use Rattle.std.specs.Prelude.{◌≡◌, ◌+◌, ◌*◌, ◌<◌, ◌≤◌, length};
ghost use Rattle.predictor.specs.Picture.{FirstStored, RowStored};

use pixel::block::Blocks;
use pixel::pixel::{BLACK, pixel_at, put_pixel, subtract_pixels};
use pixel::replace::fill;
use pixel::row::row_bytes;

// Row 0, whatever the blocks: the first pixel loses black, the others L, byte by byte, since a loop over bytes is
// vectorized. It is no plainer with the row rebuilt in one: that goes in place and carries L, this one reads what it
// never writes. The width stands beside the slices in both, since the blocks have it and contracts name it.
fn store_first_row(row: &[u8], out: &mut [u8], width: usize)
    requires { (1 ≤ width) × (4 * width ≤ length row.now) × (4 * width ≤ length out.old) }
    ensures { FirstStored width row.now out.new }
{
    let first = subtract_pixels(pixel_at(row, 0), BLACK);
    put_pixel(out, 0, first);
    fill(
        out,
        4,
        4 * width,
        |i: usize| row[i].wrapping_sub(row[i - 4]),
    );
}

// Row y, out of `rows`, which holds the row above and then the row. Where y is 0 there is no row above, and the first
// half of `rows` is not looked at.
pub fn store_row(rows: &[u8], out: &mut [u8], blocks: &Blocks, y: usize)
    requires { (length rows.now ≡ 8 * blocks.now.width) × (length out.old ≡ 4 * blocks.now.width)
        × (y < blocks.now.height) }
    ensures { RowStored blocks.now.width blocks.now.bits blocks.now.bytes.now y rows.now out.new }
{
    if y == 0 {
        store_first_row(&rows[row_bytes(1, blocks.width)], out, blocks.width);
    } else {
        crate::row::store_row(rows, out, &blocks.row(y));
    }
}
