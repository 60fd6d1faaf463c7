// Storing: a row of pixels that have entries to indices, packed into records of a strip.
ghost use Rattle.std.specs.Prelude.{◌≡◌, true, ◌*◌, ◌/◌, ◌≤◌, length};
ghost use Rattle.format.specs.Picture.{pixels, written};
ghost use Rattle.format.specs.ColorTable.{packed_width, have_entries, packed as packed_of};
ghost use Rattle.color_table.specs.Packed.{table_of, width_of, record_count, RecordsOf};

use crate::each::Packing;
use crate::flat::Flat;
use crate::lookup::Lookup;
use pixel::stride::per_pixel;

impl<'a, const N: usize> Packing<'a, N> {
    // The front of a row, by comparing, and how many records it is.
    fn put_front(&self, out: &mut [u8]) -> usize
        requires { 4 * record_count self.now ≤ length out.old }
        ensures { (result ≤ record_count self.now)
            × RecordsOf self.now 0 result out.old out.new }
    {
        // A test of N: methods of a trait would need an `impl` for each N.
        if N == 8 {
            Flat { packing: self }.put_fours(out)
        } else {
            self.put_runs(out)
        }
    }

    // A row: its front, and the records that are left.
    fn put(&self, out: &mut [u8])
        requires { 4 * record_count self.now ≤ length out.old }
        ensures { out.new ≡ written (record_count self.now)
            (packed_of (width_of self.now) self.now.lookup.now.entries.size (table_of self.now)
            (pixels self.now.row.now)) out.old }
    {
        let from = self.put_front(out);
        self.put_each::<false>(out, from, self.width().0.div_ceil(N));
    }
}

impl<'a> Lookup<'a> {
    // A row of pixels that have entries, packed at the front of `out`. A `match`, since no value is a const parameter:
    // in each arm N is a constant, for which the loops are compiled.
    pub fn pack_row(&self, row: &[u8], out: &mut [u8])
        requires fits { (1 ≤ length row.now / 4) × (length row.now / 4 ≤ 16384)
            × (4 * packed_width self.now.entries.size (length row.now / 4) ≤ length out.old) }
        requires taken { have_entries self.now.entries.size (pixels self.now.entries.bytes.now) (length row.now / 4)
            (pixels row.now) ≡ true }
        ensures { out.new ≡ written (packed_width self.now.entries.size (length row.now / 4))
            (packed_of (length row.now / 4) self.now.entries.size (pixels self.now.entries.bytes.now)
            (pixels row.now)) out.old }
    {
        let lookup = self;
        match per_pixel(self.entries.size) {
            8 => Packing::<8> { lookup, row }.put(out),
            4 => Packing::<4> { lookup, row }.put(out),
            2 => Packing::<2> { lookup, row }.put(out),
            _ => Packing::<1> { lookup, row }.put(out),
        }
    }
}
