// A color table with what finds its entries: made once a picture.
ghost use Rattle.std.specs.Prelude.{◌≡◌, true, ◌≤◌};
ghost use Rattle.format.specs.Picture.{pixels};
ghost use Rattle.format.specs.ColorTable.{index_of, has_entry};
ghost use Rattle.color_table.specs.Hints.{Hints};
ghost use Rattle.color_table.specs.Found.{found};

use crate::find::{hints_of, slot};
use pixel::entries::Entries;
use pixel::word::Word;

// `hints` has a link by slot, then one by index, in an array: a map would need a heap.
#[derive(Drop)]
pub struct Lookup<'a> {
    pub entries: Entries<'a>,
    hints: [u8; 4352],
    pub ghost some: { 1 ≤ entries.size },
    pub ghost hinted: { Hints entries.size (pixels entries.bytes.now) hints },
}

impl<'a> Lookup<'a> {
    pub fn new(entries: &Entries<'a>) -> Self
        requires { 1 ≤ entries.now.size }
        ensures { result.entries ≡ entries.now }
    {
        Lookup {
            entries: *entries,
            hints: hints_of(entries),
        }
    }

    // The lowest index whose entry equals w: the entries of w's slot in turn, lowest first. A slot with no entry holds
    // 0 as well, and then entry 0 and those linked to it are compared, of which none equals w.
    pub fn find(&self, w: Word) -> Option<usize>
        ensures { result ≡ found self.now.entries.size (pixels self.now.entries.bytes.now) w }
    {
        let mut i = self.hints[slot(w)] as usize;
        // A turn follows a link.
        while Word::at(self.entries.bytes, i) != w {
            i = self.hints[4096 + i] as usize;
            if i == 0 {
                return None;
            }
        }
        Some(i)
    }

    // The same of a pixel that has an entry.
    #[inline(always)]
    pub(crate) fn index(&self, w: Word) -> usize
        requires { has_entry self.now.entries.size (pixels self.now.entries.bytes.now) w ≡ true }
        ensures { result ≡ index_of self.now.entries.size (pixels self.now.entries.bytes.now) w }
    {
        self.find(w).unwrap()
    }

    // Whether the first entry of w's slot equals w: with no branch.
    #[inline(always)]
    pub fn first_holds(&self, w: Word) -> bool
        ensures { result ≡ true → has_entry self.now.entries.size (pixels self.now.entries.bytes.now) w ≡ true }
    {
        Word::at(self.entries.bytes, self.hints[slot(w)] as usize) == w
    }
}
