// What a loop replaces in a buffer.
ghost use Rattle.std.specs.Prelude.{◌≡◌, ℕ, ◌+◌, ◌*◌, ◌≤◌, length};
ghost use Rattle.format.specs.declared.Pixel.{Pixel};
ghost use Rattle.pixel.specs.Cells.{Cells, byte_cells, pixel_cells};

use crate::pixel::put_pixel;
use format::Pixel;

pub trait Cell {
    ghost Value: { Type 0 };

    ghost value: { Self → Value };

    ghost cells: { Cells Value };

    // Cell i becomes this one.
    fn put(self, xs: &mut [u8], i: usize)
        requires { cells.size * i + cells.size ≤ length xs.old }
        ensures { xs.new ≡ cells.put xs.old i (value self) };
}

impl Cell for u8 {
    ghost Value = { ℕ };

    ghost value = { λ x. x };

    ghost cells = { byte_cells };

    fn put(self, xs: &mut [u8], i: usize) {
        xs[i] = self;
    }
}

impl Cell for Pixel {
    ghost Value = { Pixel };

    ghost value = { λ v. v };

    ghost cells = { pixel_cells };

    fn put(self, xs: &mut [u8], i: usize) {
        put_pixel(xs, i, self);
    }
}
