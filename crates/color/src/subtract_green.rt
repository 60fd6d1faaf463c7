// The subtract green transform.
ghost use Rattle.std.specs.Prelude.{◌≡◌, ◌+◌, ◌*◌, ◌≤◌, length};
ghost use Rattle.format.specs.SubtractGreen.{add_green, subtract_green};
ghost use Rattle.color.specs.Row.{green_row, GreenRowStored};

use format::Pixel;
use pixel::replace::update;
use pixel::row::row_bytes;

fn rebuild_pixel(v: Pixel) -> Pixel
    ensures { result ≡ add_green v }
{
    Pixel {
        red: v.red.wrapping_add(v.green),
        green: v.green,
        blue: v.blue.wrapping_add(v.green),
        alpha: v.alpha,
    }
}

// No plainer with the above in one: it would take a parameter for what is done to a byte.
pub fn store_pixel(v: Pixel) -> Pixel
    ensures { result ≡ subtract_green v }
{
    Pixel {
        red: v.red.wrapping_sub(v.green),
        green: v.green,
        blue: v.blue.wrapping_sub(v.green),
        alpha: v.alpha,
    }
}

// Row y of the picture, in its place there.
pub fn rebuild_row_at(image: &mut [u8], width: usize, y: usize)
    requires { 4 * (y * width + width) ≤ length image.old }
    ensures { image.new ≡ green_row width y image.old }
{
    let row = &mut image[row_bytes(y, width)];
    update(row, 0, width, |v: Pixel| rebuild_pixel(v));
}

// A row of the picture, in a buffer of its own, which is longer: the row is lent whole, as a field of the scratch.
pub fn store_row(row: &mut [u8], width: usize)
    requires { 4 * width ≤ length row.old }
    ensures { GreenRowStored width row.old row.new }
{
    update(row, 0, width, |v: Pixel| store_pixel(v));
}
