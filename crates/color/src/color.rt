// The color transform.
ghost use Rattle.std.specs.Prelude.{◌≡◌, ◌*◌, ◌<◌, ◌≤◌, length};
ghost use Rattle.format.specs.declared.Pixel.{Pixel};
ghost use Rattle.format.specs.Color.{inverse_color, transform_color};
ghost use Rattle.format.specs.Sizes.{Holds};
ghost use Rattle.color.specs.Factors.{PixelBy};
ghost use Rattle.color.specs.Row.{made_by, row_made, color_row, ColorRowStored};

use crate::factor::Factors;
use format::Pixel;
use pixel::block::{BlockRow, Blocks};
use pixel::replace::update;
use pixel::row::row_bytes;

// Rebuilding or storing. The two bodies are no plainer as one: they add or subtract, and blue is made of the red before
// or after.
trait Direction {
    ghost rule: { Pixel → Pixel → Pixel };

    fn make(factors: Factors, v: Pixel) -> Pixel
        ensures { PixelBy rule factors v result };
}

struct Rebuild;

impl Direction for Rebuild {
    ghost rule = { inverse_color };

    #[inline(always)]
    fn make(factors: Factors, v: Pixel) -> Pixel {
        let red = v.red.wrapping_add(factors.green_to_red.delta(v.green));
        let blue = v.blue.wrapping_add(factors.green_to_blue.delta(v.green));
        Pixel {
            red,
            green: v.green,
            blue: blue.wrapping_add(factors.red_to_blue.delta(red)),
            alpha: v.alpha,
        }
    }
}

struct Store;

impl Direction for Store {
    ghost rule = { transform_color };

    #[inline(always)]
    fn make(factors: Factors, v: Pixel) -> Pixel {
        let red = v.red.wrapping_sub(factors.green_to_red.delta(v.green));
        let blue = v.blue.wrapping_sub(factors.green_to_blue.delta(v.green));
        Pixel {
            red,
            green: v.green,
            blue: blue.wrapping_sub(factors.red_to_blue.delta(v.red)),
            alpha: v.alpha,
        }
    }
}

// A pixel whose block has the data pixel e.
pub fn transform_pixel(e: Pixel, v: Pixel) -> Pixel
    ensures { result ≡ transform_color e v }
{
    Store::make(Factors::from(e), v)
}

// Pixels of one block, whose data pixel is e.
fn make_segment<D: Direction>(row: &mut [u8], from: usize, to: usize, e: Pixel)
    requires { (from ≤ to) × (4 * to ≤ length row.old) }
    ensures { row.new ≡ made_by (D.rule e) from to row.old }
{
    let factors = Factors::from(e);
    update(row, from, to, |v: Pixel| D::make(factors, v));
}

// A row, with the data pixels of its blocks.
fn make_row<D: Direction>(row: &mut [u8], blocks: &BlockRow)
    requires { 4 * blocks.now.width ≤ length row.old }
    ensures { row.new ≡ row_made D.rule blocks.now.width blocks.now.bits blocks.now.bytes.now row.old }
{
    for k in 0..blocks.count() {
        make_segment::<D>(row, blocks.start(k), blocks.start(k + 1), blocks.at(k));
    }
}

// Row y of the picture, in its place there. That the image has room is asked here: facts about a lent buffer stay
// beside it.
pub fn rebuild_row_at(image: &mut [u8], blocks: &Blocks, y: usize)
    requires { Holds blocks.now.width blocks.now.height image.old × (y < blocks.now.height) }
    ensures { image.new ≡ color_row blocks.now.width blocks.now.bits blocks.now.bytes.now y image.old }
{
    make_row::<Rebuild>(&mut image[row_bytes(y, blocks.width)], &blocks.row(y));
}

// Row y of the picture, in a buffer of its own.
pub fn store_row(row: &mut [u8], blocks: &Blocks, y: usize)
    requires { (4 * blocks.now.width ≤ length row.old) × (y < blocks.now.height) }
    ensures { ColorRowStored blocks.now.width blocks.now.bits blocks.now.bytes.now y row.old row.new }
{
    make_row::<Store>(row, &blocks.row(y));
}
