// Storing: records of a strip by looking up each pixel.
ghost use Rattle.std.specs.Prelude.{◌≡◌, true, ℕ, ◌+◌, ◌-◌, ◌*◌, ◌<◌, ◌≤◌, length};
ghost use Rattle.format.specs.Pixel.{pixel};
ghost use Rattle.format.specs.Picture.{pixels};
ghost use Rattle.format.specs.ColorTable.{range, digits};
ghost use Rattle.color_table.specs.Row.{Row};

use crate::lookup::Lookup;
use pixel::replace::replace;
use pixel::stride::Expanded;
use pixel::word::Word;

// A row of pixels that have entries, N of whose indices go into a record.
#[derive(Drop)]
pub(crate) struct Packing<'a, const N: usize> {
    pub(crate) lookup: &'a Lookup<'a>,
    pub(crate) row: &'a [u8],
    pub(crate) ghost packs: { Row lookup.now.entries N row.now },
}

impl<'a, const N: usize> Packing<'a, N> {
    ghost use Rattle.color_table.specs.Packed.{width_of, record_count, index_in_row, record_of, RecordsOf};

    // The columns of the row.
    #[inline(always)]
    pub(crate) fn width(&self) -> Expanded
        ensures { result.0 ≡ width_of self.now }
    {
        Expanded(self.row.len() / 4)
    }

    // The record of N indices, lowest first.
    #[inline(always)]
    pub(crate) fn record<F: Fn(usize) -> u32>(&self, index: F) -> Word
        requires asked { (k : ℕ) → k < N → F.pre index k }
        requires small { (k r : ℕ) → k < N → F.post index k r → r < range N }
        ensures { (g : ℕ → ℕ) → ((k r : ℕ) → k < N → F.post index k r → r ≡ g k)
            → result ≡ pixel 0 (digits (range N) N g) 0 255 }
    {
        let mut byte = 0;
        for k in (0..N).rev() {
            byte = (byte << (8 / N)) + index(k);
        }
        Word::from([0, byte as u8, 0, 255])
    }

    // The index of column x.
    #[inline(always)]
    fn index_inside(&self, x: usize) -> u32
        requires { x < width_of self.now }
        ensures { (result ≡ index_in_row self.now x) × (result < range N) }
    {
        let row = self.row;
        self.lookup.index(Word::at(row, x)) as u32
    }

    // Record j, all of whose positions are inside the row.
    #[inline(always)]
    fn whole_record(&self, j: usize) -> Word
        requires { (j + 1) * N ≤ width_of self.now }
        ensures { result ≡ record_of self.now j }
    {
        let a = j * N;
        self.record(
            |k: usize|
                requires { a + k < width_of self.now }
                ensures { (result ≡ index_in_row self.entry.now (a + k)) × (result < range N) }
            { self.index_inside(a + k) },
        )
    }

    // Record j where positions lie past the row's end: they have the index of the last column, which is looked up once
    // for all of them.
    #[inline(always)]
    fn last_record(&self, j: usize) -> Word
        requires { (j < record_count self.now) × (width_of self.now < (j + 1) * N) }
        ensures { result ≡ record_of self.now j }
    {
        let a = j * N;
        let end = self.width().0 - 1;
        let last = self.index_inside(end);
        self.record(
            |k: usize|
                requires room { (a + k ≤ 32768) × (end < width_of self.now) × (width_of self.now ≤ end + 1) }
                requires last { (last ≡ index_in_row self.now end) × (last < range N) }
                ensures { (result ≡ index_in_row self.entry.now (a + k)) × (result < range N) }
            {
                if a + k < end {
                    self.index_inside(a + k)
                } else {
                    last
                }
            },
        )
    }

    // Record j. Where all positions are INSIDE, the row's end is not tested; so in the functions below.
    #[inline(always)]
    fn record_at<const INSIDE: bool>(&self, j: usize) -> Word
        requires there { j < record_count self.now }
        requires inside { INSIDE ≡ true → (j + 1) * N ≤ width_of self.now }
        ensures { result ≡ record_of self.now j }
    {
        // By `|` the proof has what both tests say; by `||` it would have to take them apart.
        if INSIDE | ((j + 1) * N <= self.width().0) {
            self.whole_record(j)
        } else {
            self.last_record(j)
        }
    }

    // Records `from` up to `to`. That `out` has room is asked here and wherever a row is packed: a struct around it
    // would have to say what of it stays.
    pub(crate) fn put_each<const INSIDE: bool>(&self, out: &mut [u8], from: usize, to: usize)
        requires there { (from ≤ to) × (to ≤ record_count self.now) × (4 * to ≤ length out.old) }
        requires inside { INSIDE ≡ true → to * N ≤ width_of self.now }
        ensures { RecordsOf self.now from (to - from) out.old out.new }
    {
        // By `replace`: the check fails at a closure of the index alone that captures `self` alone.
        replace(
            out,
            from,
            to,
            |_: &[u8], j: usize|
                requires there { j < record_count self.now }
                requires inside { INSIDE ≡ true → (j + 1) * N ≤ width_of self.now }
                ensures { result ≡ record_of self.entry.now j }
            { self.record_at::<INSIDE>(j) },
        );
    }
}
