// A row of residuals rebuilt to pixels in place. Its part of the picture is lent to the row's work with the row above.
ghost use Rattle.std.specs.Prelude.{◌≡◌, ◌*◌, ◌<◌, ◌≤◌, length};
ghost use Rattle.format.specs.Sizes.{Holds};
ghost use Rattle.predictor.specs.Picture.{predictor_row, FirstRebuilt};

use crate::row::rebuild_row;
use format::Pixel;
use pixel::block::Blocks;
use pixel::pixel::{BLACK, add_pixels, pixel_at, put_pixel};
use pixel::replace::replace_left;
use pixel::row::row_bytes;

// Row 0, whatever its blocks say: the first pixel gains black, the others L. The width is the blocks', which contracts
// name.
fn rebuild_first_row(row: &mut [u8], width: usize)
    requires { (1 ≤ width) × (4 * width ≤ length row.old) }
    ensures { FirstRebuilt width row.old row.new }
{
    let first = add_pixels(pixel_at(row, 0), BLACK);
    put_pixel(row, 0, first);
    replace_left(row, 1, width, |row: &[u8], x: usize, left: Pixel| {
        add_pixels(pixel_at(row, x), left)
    });
}

// Row y, once the rows above it are rebuilt. That the image has room is asked here: facts about a lent buffer stay
// beside it.
pub fn rebuild_row_at(image: &mut [u8], blocks: &Blocks, y: usize)
    requires { Holds blocks.now.width blocks.now.height image.old × (y < blocks.now.height) }
    ensures { image.new ≡ predictor_row blocks.now.width blocks.now.bits blocks.now.bytes.now y image.old }
{
    let w = blocks.width;
    if y == 0 {
        rebuild_first_row(&mut image[row_bytes(0, w)], w);
    } else {
        let above = row_bytes(y - 1, w);
        rebuild_row(&mut image[above.start..row_bytes(y, w).end], &blocks.row(y));
    }
}
