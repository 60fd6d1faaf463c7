// Packed columns and expanded ones, which are counted in different pixels: neither may stand for the other.
ghost use Rattle.std.specs.Prelude.{◌≡◌, ◌≤◌};
ghost use Rattle.format.specs.ColorTable.{per_pixel, packed_width};
ghost use Rattle.pixel.specs.Stride.{Places};

// Columns of a row of packed pixels.
#[derive(Clone, Copy)]
pub struct Packed(pub usize);

// Columns of a row of the picture.
#[derive(Clone, Copy)]
pub struct Expanded(pub usize);

// How many indices a packed pixel holds.
pub fn per_pixel(size: usize) -> usize
    ensures { (result ≡ per_pixel size) × Places result }
{
    if size <= 2 {
        8
    } else if size <= 4 {
        4
    } else if size <= 16 {
        2
    } else {
        1
    }
}

// The packed columns of a row. The bound on columns is asked and is not in their type: `unpack_row_at` asks none.
pub fn packed_width(expanded: Expanded, size: usize) -> Packed
    requires { expanded.0 ≤ 16384 }
    ensures { result.0 ≡ packed_width size expanded.0 }
{
    Packed(expanded.0.div_ceil(per_pixel(size)))
}
