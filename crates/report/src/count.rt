// How many pixels of a picture are found at each index of a list of colors, or at none. Groups of sixteen pixels of one
// color are counted at once.
ghost use Rattle.std.specs.Prelude.{◌≡◌, ◌+◌, ◌*◌, ◌/◌, ◌<◌, ◌≤◌, length, set};
ghost use Rattle.report.specs.Counts.{at, most_pixels};

use crate::colors::place;
use color_table::groups::pass;
use color_table::lookup::Lookup;
use pixel::word::Word;

// How many pixels were found at each index of a list of colors, and at none of them, which is the list's size: the
// first `size` numbers, in an array since there is no heap.
#[derive(Clone, Copy)]
pub struct Counts {
    pub numbers: [u64; 257],
    pub size: usize,
    pub ghost full: { length numbers ≡ 257 },
    pub ghost few: { size ≤ 257 },
}

impl Counts {
    // n pixels more at index k.
    fn add(&mut self, k: usize, n: usize)
        requires { (k ≤ 256) × (at self.old.numbers k + n ≤ most_pixels) }
        ensures added { self.new.numbers ≡ set self.old.numbers k (at self.old.numbers k + n) }
        ensures size { self.new.size ≡ self.old.size }
    {
        self.numbers[k] += n as u64;
    }
}

// A picture's pixels, to be counted by a list of colors.
#[derive(Clone, Copy)]
pub struct Counting<'a> {
    pub list: &'a Lookup<'a>,
    pub picture: &'a [u8],
    pub ghost few: { length picture.now ≤ 4 * most_pixels },
}

impl<'a> Counting<'a> {
    ghost use Rattle.report.specs.Counting.{count_of, CountedIn, Start};

    // How many they are.
    fn count(&self) -> usize
        ensures { result ≡ count_of self.now }
    {
        self.picture.len() / 4
    }

    // Pixels `from` up to `to`, one by one.
    fn each(&self, counts: &mut Counts, from: usize, to: usize)
        requires inside { (from ≤ to) × (to ≤ count_of self.now) }
        requires counted { CountedIn self.now from counts.old }
        ensures { CountedIn self.now to counts.new }
    {
        for pixel in self.picture[4 * from..4 * to].as_chunks::<4>().0 {
            counts.add(place(self.list, Word::from(*pixel)), 1);
        }
    }

    // The groups from pixel i on that are of its color, and the sixteen pixels after them, or those that are left;
    // returns the pixel after these.
    fn run(&self, counts: &mut Counts, i: usize) -> usize
        requires start { Start self.now i × (i < count_of self.now) }
        requires counted { CountedIn self.now i counts.old }
        ensures { (i < result) × Start self.now result × CountedIn self.now result counts.new }
    {
        let w = Word::at(self.picture, i);
        let j = pass(self.picture, i, self.count() / 16 * 16, w, w);
        counts.add(place(self.list, w), j - i);
        let end = self.count().min(j + 16);
        self.each(counts, j, end);
        end
    }

    // The counts of all of them.
    pub fn counts(&self) -> Counts
        ensures { CountedIn self.now (count_of self.now) result }
    {
        let mut counts = Counts {
            numbers: [0; 257],
            size: self.list.entries.size + 1,
        };
        let mut i = 0;
        // A turn goes to the end of a run.
        while i < self.count() {
            i = self.run(&mut counts, i);
        }
        counts
    }
}
