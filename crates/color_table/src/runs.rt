// Storing by runs: sixteen pixels at a time are compared with the one before them, and packed one by one only where
// they differ.
ghost use Rattle.std.specs.Prelude.{◌≡◌, ◌+◌, ◌*◌, ◌/◌, ◌<◌, ◌≤◌, length};
ghost use Rattle.format.specs.Picture.{pixels};
ghost use Rattle.color_table.specs.Packed.{width_of, record_count, RecordsOf, GroupsOf};
ghost use Rattle.color_table.specs.Pack.{LastOf, Filled};

use crate::each::Packing;
use crate::flat::Flat;
use crate::groups::group_of;
use pixel::replace::fill;
use pixel::word::Word;

// How many groups of sixteen pixels are packed, the pixel before the next one, and the record of such pixels.
#[derive(Clone, Copy)]
struct Last {
    groups: usize,
    word: Word,
    packed: Word,
}

impl<'a, const N: usize> Packing<'a, N> {
    // Column x as the last pixel.
    fn last_of(&self, groups: usize, x: usize) -> Last
        requires { x < width_of self.now }
        ensures { (result.groups ≡ groups) × LastOf self.now result }
    {
        let word = Word::at(self.row, x);
        let i = self.lookup.index(word) as u32;
        let packed = self.record(
            |_: usize|
                ensures { result ≡ i }
            { i },
        );
        Last {
            groups,
            word,
            packed,
        }
    }

    // The groups that are the last pixel again, and how many are packed then.
    fn fill_groups(&self, out: &mut [u8], groups: usize, last: &Last) -> usize
        requires { (last.now.groups ≤ groups) × (16 * groups ≤ width_of self.now)
            × (4 * (groups * (16 / N)) ≤ length out.old) }
        ensures { (last.now.groups ≤ result) × (result ≤ groups)
            × Filled N last.now result (pixels self.now.row.now) out.old out.new }
    {
        let m = 16 / N;
        let packed = last.packed;
        // A loop: by `pass` and one `fill` storing takes longer.
        for g in last.groups..groups {
            if !group_of(self.row, 16 * g, last.word, last.word) {
                return g;
            }
            fill(
                out,
                g * m,
                g * m + m,
                |_: usize|
                    ensures { result ≡ packed }
                { packed },
            );
        }
        groups
    }

    // The records of group g. Those of two bits an index are compared at once, the others looked up.
    fn pack_group(&self, out: &mut [u8], g: usize)
        requires { (16 * (g + 1) ≤ width_of self.now) × (4 * ((g + 1) * (16 / N)) ≤ length out.old) }
        ensures { RecordsOf self.now (g * (16 / N)) (16 / N) out.old out.new }
    {
        let m = 16 / N;
        // A test of N: methods of a trait would need an `impl` for each N.
        if N == 4 {
            Flat { packing: self }.put_four(out, g * m);
        } else {
            self.put_each::<true>(out, g * m, g * m + m);
        }
    }

    // The groups that are the last pixel again, and the one after them.
    fn pack_run(&self, out: &mut [u8], groups: usize, last: Last) -> Last
        requires inside { (last.groups < groups) × (16 * groups ≤ width_of self.now)
            × (4 * (groups * (16 / N)) ≤ length out.old) }
        requires last { LastOf self.now last }
        ensures { (last.groups < result.groups) × (result.groups ≤ groups)
            × LastOf self.now result
            × GroupsOf self.now last.groups result.groups out.old out.new }
    {
        let g = self.fill_groups(out, groups, &last);
        if groups <= g {
            return Last { groups: g, ..last };
        }
        self.pack_group(out, g);
        self.last_of(g + 1, 16 * g + 15)
    }

    // The row's groups, and how many records they are.
    pub(crate) fn put_runs(&self, out: &mut [u8]) -> usize
        requires { 4 * record_count self.now ≤ length out.old }
        ensures { (result ≤ record_count self.now)
            × RecordsOf self.now 0 result out.old out.new }
    {
        let groups = self.width().0 / 16;
        let mut last = self.last_of(0, 0);
        // A turn goes to the end of a run.
        while last.groups < groups {
            last = self.pack_run(out, groups, last);
        }
        groups * (16 / N)
    }
}
