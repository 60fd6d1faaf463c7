// Blocks: 2^bits columns and rows share a data pixel.
ghost use Rattle.std.specs.Prelude.{◌≡◌, ◌/◌, ◌^◌, ◌<◌, ◌≤◌};
ghost use Rattle.format.specs.Picture.{pixels, ceiling, block};
ghost use Rattle.format.specs.Sizes.{Blocked};
ghost use Rattle.pixel.specs.Blocks.{BlockedRow, block_start};
ghost use Rattle.pixel.specs.Held.{HoldsRow};

use crate::pixel::pixel_at;
use crate::row::row_bytes;
use format::Pixel;

// The side of a block.
fn side(bits: u32) -> usize
    requires { bits ≤ 9 }
    ensures { (result ≡ 2 ^ bits) × (1 ≤ result) × (result ≤ 512) }
{
    1usize << bits
}

// How many blocks cover `size` columns or rows. By `div_ceil` the remainder is worked out too.
pub fn subsample_size(size: usize, bits: u32) -> usize
    requires { (size ≤ 16384) × (bits ≤ 9) }
    ensures { result ≡ ceiling size (2 ^ bits) }
{
    (size + side(bits) - 1) >> bits
}

// The first column of block k of a row; the row's end past the last block.
pub fn block_start(width: usize, bits: u32, k: usize) -> usize
    requires { (width ≤ 16384) × (bits ≤ 9) × (k ≤ ceiling width (2 ^ bits)) }
    ensures { result ≡ block_start width bits k }
{
    (k * side(bits)).min(width)
}

// The data pixels of a row's blocks.
#[derive(Clone, Copy)]
pub struct BlockRow<'a> {
    pub width: usize,
    pub bits: u32,
    pub bytes: &'a [u8],
    pub ghost there: { BlockedRow width bits bytes.now },
}

impl<'a> BlockRow<'a> {
    // How many blocks the row has.
    pub fn count(&self) -> usize
        ensures { result ≡ ceiling self.now.width (2 ^ self.now.bits) }
    {
        subsample_size(self.width, self.bits)
    }

    // The first column of block k.
    pub fn start(&self, k: usize) -> usize
        requires { k ≤ ceiling self.now.width (2 ^ self.now.bits) }
        ensures { result ≡ block_start self.now.width self.now.bits k }
    {
        block_start(self.width, self.bits, k)
    }

    // The data pixel of block k.
    pub fn at(&self, k: usize) -> Pixel
        requires { k < ceiling self.now.width (2 ^ self.now.bits) }
        ensures { result ≡ pixels self.now.bytes.now k }
    {
        pixel_at(self.bytes, k)
    }
}

// The data pixels of a picture's blocks.
#[derive(Clone, Copy)]
pub struct Blocks<'a> {
    pub width: usize,
    pub height: usize,
    pub bits: u32,
    pub bytes: &'a [u8],
    pub ghost sized: { (1 ≤ width) × (width ≤ 16384) },
    pub ghost there: { Blocked width height bits bytes.now },
}

impl<'a> Blocks<'a> {
    // Those of row y.
    pub fn row(&self, y: usize) -> BlockRow<'a>
        requires { y < self.now.height }
        ensures same { (result.width ≡ self.now.width) × (result.bits ≡ self.now.bits) }
        ensures holds { HoldsRow (pixels self.now.bytes.now) (y / 2 ^ self.now.bits)
            (ceiling self.now.width (2 ^ self.now.bits)) result.bytes.now }
    {
        let columns = subsample_size(self.width, self.bits);
        BlockRow {
            width: self.width,
            bits: self.bits,
            bytes: &self.bytes[row_bytes(y >> self.bits, columns)],
        }
    }

    // That of the block that column x of row y is in.
    pub fn at(&self, x: usize, y: usize) -> Pixel
        requires { (x < self.now.width) × (y < self.now.height) }
        ensures { result ≡ block self.now.width self.now.bits (pixels self.now.bytes.now) x y }
    {
        self.row(y).at(x >> self.bits)
    }
}
