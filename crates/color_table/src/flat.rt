// Storing where a table has at most four entries: indices by comparing with each entry, with no branch, four records at
// a time, so that they are compared at once.
ghost use Rattle.std.specs.Prelude.{◌≡◌, ◌+◌, ◌*◌, ◌<◌, ◌≤◌, length};
ghost use Rattle.format.specs.ColorTable.{range};
ghost use Rattle.color_table.specs.Packed.{width_of, record_count, index_in_row, record_of, RecordsOf};

use crate::each::Packing;
use crate::four::put_four;
use pixel::word::Word;

// A row to be packed by such a table.
#[derive(Drop)]
pub(crate) struct Flat<'a, const N: usize> {
    pub(crate) packing: &'a Packing<'a, N>,
    pub(crate) ghost few: { 4 ≤ N },
}

impl<'a, const N: usize> Flat<'a, N> {
    // The index of column x: how many of the first entries, which are all or all but the last one, come before it.
    #[inline(always)]
    fn index(&self, x: usize) -> u32
        requires { x < width_of self.now.packing.now }
        ensures { (result ≡ index_in_row self.now.packing.now x) × (result < range N) }
    {
        let packing = self.packing;
        let lookup = packing.lookup;
        let entries = lookup.entries;
        let w = Word::at(packing.row, x);
        let top = (1usize << (8 / N)) - 1;
        let mut found = false;
        let mut r = 0;
        for j in 0..top {
            found = found | (Word::at(entries.bytes, j) == w);
            r = r + u32::from(!found);
        }
        r
    }

    // Record j, which is inside the row. It shares no `record_at` by a closure from a position to its index: that would
    // capture `self` alone, at which the check fails.
    #[inline(always)]
    fn record(&self, j: usize) -> Word
        requires { (j + 1) * N ≤ width_of self.now.packing.now }
        ensures { result ≡ record_of self.now.packing.now j }
    {
        let a = j * N;
        self.packing.record(
            |k: usize|
                requires { a + k < width_of self.now.packing.now }
                ensures { (result ≡ index_in_row self.entry.now.packing.now (a + k)) × (result < range N) }
            { self.index(a + k) },
        )
    }

    // Four records. N is a constant, for which the loops are compiled.
    pub(crate) fn put_four(&self, out: &mut [u8], j: usize)
        requires { ((j + 4) * N ≤ width_of self.now.packing.now) × (4 * (j + 4) ≤ length out.old) }
        ensures { RecordsOf self.now.packing.now j 4 out.old out.new }
    {
        let records = [
            self.record(j),
            self.record(j + 1),
            self.record(j + 2),
            self.record(j + 3),
        ];
        put_four(out, j, records);
    }

    // A row's records, four at a time, and how many they are.
    pub(crate) fn put_fours(&self, out: &mut [u8]) -> usize
        requires { 4 * record_count self.now.packing.now ≤ length out.old }
        ensures { (result ≤ record_count self.now.packing.now)
            × RecordsOf self.now.packing.now 0 result out.old out.new }
    {
        let fours = self.packing.width().0 / (4 * N);
        for k in 0..fours {
            self.put_four(out, 4 * k);
        }
        4 * fours
    }
}
