// The color table, padded so that every byte is an index, and the columns of every byte that are made of it.
ghost use Rattle.std.specs.Prelude.{◌≡◌, ◌*◌, ◌/◌, ◌%◌, ◌^◌, ◌<◌, ◌≤◌};
ghost use Rattle.format.specs.Picture.{pixels, Picture};
ghost use Rattle.format.specs.ColorTable.{per_pixel, range, index_in, entry};
ghost use Rattle.pixel.specs.Stride.{Places};
ghost use Rattle.color_table.specs.Places.{places-prop};
ghost use Rattle.color_table.specs.Table.{column_in, TableOf, ColumnsOf};

use pixel::entries::Entries;
use pixel::replace::fill;
use pixel::stride::per_pixel;
use pixel::word::Word;

// One more than the largest index that a packed pixel can hold.
pub fn index_range(size: usize) -> usize
    requires { size ≤ 256 }
    ensures { (result ≡ range (per_pixel size)) × (1 ≤ result) × (size ≤ result) × (result ≤ 256)
        × (result ^ per_pixel size ≡ 256) × (size ≤ 16 → result ≤ 16) }
{
    1 << (8 / per_pixel(size))
}

// The entries of a color table, padded so that every byte is an index, and how many indices a byte holds.
#[derive(Drop)]
struct Padded {
    entries: [[u8; 4]; 256],
    per_byte: usize,
    ghost places: { Places per_byte } by { places-prop per_byte },
}

impl Padded {
    // The entries, and (0, 0, 0, 0) after them.
    fn new(entries: &Entries) -> Self
        ensures { (result.per_byte ≡ per_pixel entries.now.size)
            × TableOf (entry entries.now.size (pixels entries.now.bytes.now)) result.entries }
    {
        let mut padded = [[0u8; 4]; 256];
        // By the index, at which one array is read and the other written: of what an `iter_mut` wrote no fact is known.
        for i in 0..entries.size {
            padded[i] = <[u8; 4]>::from(Word::at(entries.bytes, i));
        }
        Padded {
            entries: padded,
            per_byte: per_pixel(entries.size),
        }
    }

    // Index k of the byte b.
    fn index_in(&self, b: u8, k: usize) -> u8
        requires { k < self.now.per_byte }
        ensures { result ≡ index_in self.now.per_byte b k }
    {
        let bits = 8 / self.per_byte;
        ((b as usize >> (bits * k)) % (1 << bits)) as u8
    }

    // Pixel i of the columns: the entry of index i % n of the byte i / n, which holds n.
    fn column(&self, i: usize) -> Word
        requires { i < 256 * self.now.per_byte }
        ensures { result ≡ column_in self.now.per_byte self.now.entries i }
    {
        let n = self.per_byte;
        let index = self.index_in((i / n) as u8, i % n);
        Word::from(self.entries[index as usize])
    }

    // The pixels of the n indices of every byte, those of byte b from pixel b * n on.
    fn columns(&self) -> [u8; 8192]
        ensures { (e : Picture) → TableOf e self.now.entries → ColumnsOf self.now.per_byte e result }
    {
        let mut columns = [0u8; 8192];
        fill(
            &mut columns,
            0,
            256 * self.per_byte,
            |i: usize| self.column(i),
        );
        columns
    }
}

// The columns of a table's entries: made once a picture.
pub fn columns_of_table(entries: &Entries) -> [u8; 8192]
    ensures { ColumnsOf (per_pixel entries.now.size) (entry entries.now.size (pixels entries.now.bytes.now)) result }
{
    Padded::new(entries).columns()
}
