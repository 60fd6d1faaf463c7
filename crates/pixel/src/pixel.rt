// A pixel by value. Loops read and write whole pixels, so that a turn is one call.
ghost use Rattle.std.specs.Prelude.{◌≡◌, ◌+◌, ◌*◌, ◌≤◌, length, if◌then◌else◌};
ghost use Rattle.format.specs.Byte.{add, sub};
ghost use Rattle.format.specs.Pixel.{each};
ghost use Rattle.format.specs.Picture.{pixels};
ghost use Rattle.format.specs.Predictor.{select as selected};
ghost use Rattle.pixel.specs.Distance.{between};
ghost use Rattle.pixel.specs.Cells.{put_pixel};

use crate::byte::distance;
use crate::choice::pick;
use format::Pixel;

pub const BLACK: Pixel = Pixel {
    red: 0,
    green: 0,
    blue: 0,
    alpha: 255,
};

pub const CLEAR: Pixel = Pixel {
    red: 0,
    green: 0,
    blue: 0,
    alpha: 0,
};

// Pixel i of the bytes xs. That it is there is asked where a pixel is read or written, as of any index.
pub fn pixel_at(xs: &[u8], i: usize) -> Pixel
    requires { 4 * i + 4 ≤ length xs.now }
    ensures { result ≡ pixels xs.now i }
{
    let j = 4 * i;
    Pixel {
        red: xs[j],
        green: xs[j + 1],
        blue: xs[j + 2],
        alpha: xs[j + 3],
    }
}

pub fn put_pixel(xs: &mut [u8], i: usize, v: Pixel)
    requires { 4 * i + 4 ≤ length xs.old }
    ensures { xs.new ≡ put_pixel xs.old i v }
{
    let j = 4 * i;
    xs[j] = v.red;
    xs[j + 1] = v.green;
    xs[j + 2] = v.blue;
    xs[j + 3] = v.alpha;
}

// Channel by channel, modulo 256. Here and below the channels are written out: by a closure for each channel, the loops
// of the modes take longer.
pub fn add_pixels(u: Pixel, v: Pixel) -> Pixel
    ensures { result ≡ each add u v }
{
    Pixel {
        red: u.red.wrapping_add(v.red),
        green: u.green.wrapping_add(v.green),
        blue: u.blue.wrapping_add(v.blue),
        alpha: u.alpha.wrapping_add(v.alpha),
    }
}

// A function, since with the four differences in one the proof by congruence does not close.
fn minus(a: u8, b: u8) -> u8
    ensures { result ≡ sub a b }
{
    a.wrapping_sub(b)
}

pub fn subtract_pixels(u: Pixel, v: Pixel) -> Pixel
    ensures { result ≡ each sub u v }
{
    Pixel {
        red: minus(u.red, v.red),
        green: minus(u.green, v.green),
        blue: minus(u.blue, v.blue),
        alpha: minus(u.alpha, v.alpha),
    }
}

// The sum over four channels of |u - v|.
pub fn pixel_distance(u: Pixel, v: Pixel) -> u32
    ensures { result ≡ between u v }
{
    distance(u.red, v.red)
        + distance(u.green, v.green)
        + distance(u.blue, v.blue)
        + distance(u.alpha, v.alpha)
}

// Channel by channel, which compiles to no branch.
pub fn pick_pixel(first: bool, u: Pixel, v: Pixel) -> Pixel
    ensures { result ≡ (if first then u else v) }
{
    Pixel {
        red: pick(first, u.red, v.red),
        green: pick(first, u.green, v.green),
        blue: pick(first, u.blue, v.blue),
        alpha: pick(first, u.alpha, v.alpha),
    }
}

pub fn select(l: Pixel, t: Pixel, tl: Pixel) -> Pixel
    ensures { result ≡ selected l t tl }
{
    let near = pixel_distance(t, tl) < pixel_distance(l, tl);
    pick_pixel(near, l, t)
}
