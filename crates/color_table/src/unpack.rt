// A row unpacked in place: the buffer's front holds the packed rows, and becomes the expanded ones row by row from the
// bottom. A row's columns go from the right, because one may lie where a packed pixel of the same row stands.
ghost use Rattle.std.specs.Prelude.{◌≡◌, ℕ, ◌+◌, ◌-◌, ◌*◌, ◌<◌, ◌≤◌, length, get_or, map};
ghost use Rattle.format.specs.Picture.{Picture, pixels};
ghost use Rattle.format.specs.ColorTable.{packed_width, per_pixel};
ghost use Rattle.pixel.specs.Cells.{pixel_cells, run, given};
ghost use Rattle.color_table.specs.Table.{ColumnsOf};
ghost use Rattle.color_table.specs.Four.{four_of};
ghost use Rattle.color_table.specs.Unpack.{row_of, Columns, RowUnpacked};

use crate::four::put_four;
use format::Pixel;
use pixel::pixel::{pixel_at, put_pixel};
use pixel::replace::replace_back;
use pixel::stride::{Expanded, Packed, per_pixel};
use pixel::word::Word;

// The byte of packed pixel k.
#[inline(always)]
fn packed_byte(part: &[u8], k: usize) -> usize
    requires { 4 * k + 4 ≤ length part.now }
    ensures { (result ≡ (pixels part.now k).green) × (result < 256) }
{
    part[4 * k + 1] as usize
}

// Pixels `from` of `columns` as pixels i to i + 3. They are moved one by one, by bytes, which the compiler joins two by
// two: by the generic `put_four` a table of 256 takes longer.
fn move_four(part: &mut [u8], i: usize, from: [usize; 4], columns: &[u8; 8192])
    requires inside { 4 * (i + 4) ≤ length part.old }
    requires bytes { (k : ℕ) → k < 4 → get_or from k 0 < 256 }
    ensures { (f : Picture) → map (pixels columns.now) from ≡ four_of f i
        → part.new ≡ run pixel_cells (given f) i 4 part.old }
{
    let [p, q, r, s] = from;
    let a = pixel_at(columns, p);
    let b = pixel_at(columns, q);
    let c = pixel_at(columns, r);
    let d = pixel_at(columns, s);
    put_pixel(part, i, a);
    put_pixel(part, i + 1, b);
    put_pixel(part, i + 2, c);
    put_pixel(part, i + 3, d);
}

// What a row is unpacked by: the columns of every byte, which has N indices, and the pixel where the row's own begin.
#[derive(Drop)]
struct Unpacking<'a, const N: usize> {
    columns: &'a [u8; 8192],
    first: usize,
    ghost some: { 1 ≤ N },
    ghost most: { N ≤ 8 },
}

// `part` starts with a row's packed pixels, and its columns go to pixel `first` on. What is asked of it is room for the
// columns that a function writes, another number in each.
impl<'a, const N: usize> Unpacking<'a, N> {
    // Column x.
    #[inline(always)]
    fn column_at(&self, part: &[u8], x: usize) -> Word
        requires { 4 * x + 4 ≤ length part.now }
        ensures { (e : Picture) → ColumnsOf N e self.now.columns.now
            → result ≡ row_of N e (pixels part.now) self.now.first (self.now.first + x) }
    {
        let columns = self.columns;
        Word::at(columns, packed_byte(part, x / N) * N + x % N)
    }

    // Four columns, all of them read before one is written.
    fn put_four(&self, part: &mut [u8], x: usize)
        requires { 4 * (self.now.first + x + 4) ≤ length part.old }
        ensures { Columns N self.now.columns.now self.now.first x 4 part.old part.new }
    {
        let columns = self.columns;
        let i = self.first + x;
        // A test of N: methods of a trait would need an `impl` for each N.
        if N == 1 {
            let from = [
                packed_byte(part, x),
                packed_byte(part, x + 1),
                packed_byte(part, x + 2),
                packed_byte(part, x + 3),
            ];
            move_four(part, i, from, columns);
        } else {
            let pixels = [
                self.column_at(part, x),
                self.column_at(part, x + 1),
                self.column_at(part, x + 2),
                self.column_at(part, x + 3),
            ];
            put_four(part, i, pixels);
        }
    }

    // Pixels j to j + 3 of `columns` as pixels i to i + 3.
    #[inline(always)]
    fn copy_four(&self, part: &mut [u8], i: usize, j: usize)
        requires { (4 * (i + 4) ≤ length part.old) × (j + 4 ≤ 2048) }
        ensures { (f : Picture) → ((k : ℕ) → k < 4 → pixels self.now.columns.now (j + k) ≡ f (i + k))
            → part.new ≡ run pixel_cells (given f) i 4 part.old }
    {
        let columns = self.columns;
        let pixels = [
            Word::at(columns, j),
            Word::at(columns, j + 1),
            Word::at(columns, j + 2),
            Word::at(columns, j + 3),
        ];
        put_four(part, i, pixels);
    }

    // The first 4 * count columns.
    fn put_fours(&self, part: &mut [u8], count: usize)
        requires { 4 * (self.now.first + 4 * count) ≤ length part.old }
        ensures { Columns N self.now.columns.now self.now.first 0 (4 * count) part.old part.new }
    {
        for k in (0..count).rev() {
            self.put_four(part, 4 * k);
        }
    }

    // The first 8 * count columns. By eights the byte of a packed pixel that has eight is read once; column by column
    // a table of 2 takes longer than the Rust.
    fn put_front(&self, part: &mut [u8], count: usize)
        requires { 4 * (self.now.first + 8 * count) ≤ length part.old }
        ensures { Columns N self.now.columns.now self.now.first 0 (8 * count) part.old part.new }
    {
        // A test of N: methods of a trait would need an `impl` for each N.
        if N == 8 {
            Unpacking::<8> {
                columns: self.columns,
                first: self.first,
            }
            .put_eights(part, count);
        } else {
            self.put_fours(part, 2 * count);
        }
    }

    // Columns `from` up to `width`, one by one.
    fn put_rest(&self, part: &mut [u8], from: usize, width: usize)
        requires { (from ≤ width) × (4 * (self.now.first + width) ≤ length part.old) }
        ensures { Columns N self.now.columns.now self.now.first from (width - from) part.old part.new }
    {
        replace_back(
            part,
            self.first + from,
            self.first + width,
            |part: &[u8], i: usize|
                requires { (self.now.first ≤ i) × (4 * i + 4 ≤ length part.now) }
                ensures { (e : Picture) → ColumnsOf N e self.entry.now.columns.now
                    → result ≡ row_of N e (pixels part.now) self.entry.now.first i }
            { Pixel::from(self.column_at(part, i - self.first)) },
        );
    }

    // All `width` columns.
    fn put_row(&self, part: &mut [u8], width: usize)
        requires { 4 * (self.now.first + width) ≤ length part.old }
        ensures { Columns N self.now.columns.now self.now.first 0 width part.old part.new }
    {
        let eights = width / 8;
        self.put_rest(part, 8 * eights, width);
        self.put_front(part, eights);
    }
}

// A packed pixel of eight indices.
impl<'a> Unpacking<'a, 8> {
    // The columns of packed pixel k.
    #[inline(always)]
    fn put_pixel(&self, part: &mut [u8], k: usize)
        requires { 4 * (self.now.first + 8 * k + 8) ≤ length part.old }
        ensures { Columns 8 self.now.columns.now self.now.first (8 * k) 8 part.old part.new }
    {
        let j = packed_byte(part, k) * 8;
        let i = self.first + 8 * k;
        self.copy_four(part, i + 4, j + 4);
        self.copy_four(part, i, j);
    }

    // The columns of the first `count` packed pixels.
    fn put_eights(&self, part: &mut [u8], count: usize)
        requires { 4 * (self.now.first + 8 * count) ≤ length part.old }
        ensures { Columns 8 self.now.columns.now self.now.first 0 (8 * count) part.old part.new }
    {
        for k in (0..count).rev() {
            self.put_pixel(part, k);
        }
    }
}

// A row of `width` columns. A `match`, since no value is a const parameter: in each arm N is a constant, for which the
// loops are compiled.
fn unpack_row(part: &mut [u8], first: usize, width: usize, size: usize, columns: &[u8; 8192])
    requires { 4 * (first + width) ≤ length part.old }
    ensures { Columns (per_pixel size) columns.now first 0 width part.old part.new }
{
    match per_pixel(size) {
        8 => Unpacking::<8> { columns, first }.put_row(part, width),
        4 => Unpacking::<4> { columns, first }.put_row(part, width),
        2 => Unpacking::<2> { columns, first }.put_row(part, width),
        _ => Unpacking::<1> { columns, first }.put_row(part, width),
    }
}

// Row y of the picture. Its part of the buffer goes from its packed pixels to its last column.
// Not inlined, so that four pixels of one index are stored at once: with columns that are a local, two are.
#[inline(never)]
#[tactic(auto, using(crate::proofs::Rows::rows_before))]
pub fn unpack_row_at(
    image: &mut [u8],
    y: usize,
    packed: Packed,
    expanded: Expanded,
    size: usize,
    columns: &[u8; 8192],
)
    requires { (1 ≤ expanded.0) × (packed.0 ≡ packed_width size expanded.0)
        × (4 * (y * expanded.0 + expanded.0) ≤ length image.old) }
    ensures { RowUnpacked expanded.0 size y columns.now image.old
        image.new }
{
    let c = packed.0;
    let w = expanded.0;
    let a = 4 * (y * c);
    let b = 4 * (y * w + w);
    unpack_row(&mut image[a..b], y * w - y * c, w, size, columns);
}
