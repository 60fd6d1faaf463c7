// Whether pixels have entries. Groups of sixteen pixels are compared with the pixel before them and their last one, and
// each is looked up only where one differs from both.
ghost use Rattle.std.specs.Prelude.{◌≡◌, true, ◌/◌, ◌%◌, length};
ghost use Rattle.format.specs.Picture.{pixels};
ghost use Rattle.format.specs.ColorTable.{has_entry, have_entries};

use crate::groups::{group_of, pass};
use crate::lookup::Lookup;
use pixel::word::Word;

impl<'a> Lookup<'a> {
    fn has(&self, w: Word) -> bool
        ensures { result ≡ has_entry self.now.entries.size (pixels self.now.entries.bytes.now) w }
    {
        self.find(w).is_some()
    }

    // Whether each pixel has an entry, by looking up each.
    fn accept_each(&self, part: &[u8]) -> bool
        ensures { result ≡ have_entries self.now.entries.size (pixels self.now.entries.bytes.now) (length part.now / 4)
            (pixels part.now) }
    {
        (0..part.len() / 4).all(|i| self.has(Word::at(part, i)))
    }

    // The same of sixteen pixels, where a has an entry. Most groups are the pixel before them, a, or that and one color
    // more: one branch for both, so that a change of color is not mispredicted.
    fn accept_group(&self, group: &[u8], a: Word) -> bool
        requires sixteen { length group.now ≡ 64 }
        requires has { has_entry self.now.entries.size (pixels self.now.entries.bytes.now) a ≡ true }
        ensures { result ≡ have_entries self.now.entries.size (pixels self.now.entries.bytes.now) 16
            (pixels group.now) }
    {
        let c = Word::at(group, 15);
        let known = self.first_holds(c) | (c == a);
        if known & group_of(group, 0, a, c) {
            return true;
        }
        self.accept_each(group)
    }

    // The same of groups. At first those of two entries are passed, so that no group of a picture of two colors is
    // looked up.
    fn accept_groups(&self, row: &[u8]) -> bool
        requires { length row.now % 64 ≡ 0 }
        ensures { result ≡ have_entries self.now.entries.size (pixels self.now.entries.bytes.now) (length row.now / 4)
            (pixels row.now) }
    {
        let entries = self.entries;
        let mut a = Word::at(entries.bytes, 0);
        let last = Word::at(entries.bytes, entries.size - 1);
        let from = pass(row, 0, row.len() / 4, a, last);
        // A `for`, since it carries a: no law of `all` is about a closure that changes what it holds.
        for g in from / 16..row.len() / 64 {
            if !self.accept_group(&row[64 * g..64 * g + 64], a) {
                return false;
            }
            a = Word::at(row, 16 * g + 15);
        }
        true
    }

    // Whether each pixel of the row has an entry.
    pub fn accept(&self, row: &[u8]) -> bool
        ensures { result ≡ have_entries self.now.entries.size (pixels self.now.entries.bytes.now) (length row.now / 4)
            (pixels row.now) }
    {
        let whole = row.len() / 64 * 64;
        self.accept_groups(&row[..whole]) && self.accept_each(&row[whole..])
    }
}
