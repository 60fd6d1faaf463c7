// Looking up the index of a pixel.
ghost use Rattle.std.specs.Prelude.{◌≡◌, ◌/◌, ◌<◌, ◌≤◌, length};
ghost use Rattle.format.specs.Picture.{pixels};
ghost use Rattle.color_table.specs.Found.{found};
ghost use Rattle.color_table.specs.Hints.{slot_of, Linked, Hints};

use pixel::entries::Entries;
use pixel::word::Word;

// The lowest index whose entry equals w, by looking at each.
pub fn scan(entries: &[u8], w: Word) -> Option<usize>
    ensures { result ≡ found (length entries.now / 4) (pixels entries.now) w }
{
    (0..entries.len() / 4).find(|i| Word::at(entries, *i) == w)
}

// Where w is looked for.
pub(crate) fn slot(w: Word) -> usize
    ensures { (result ≡ slot_of w) × (result < 4096) }
{
    (w.number() as usize) * 2654435761 / 1048576 % 4096
}

fn no_hints(entries: &Entries) -> [u8; 4352]
    requires { 1 ≤ entries.now.size }
    ensures { Linked entries.now.size entries.now.size (pixels entries.now.bytes.now) result }
{
    [0u8; 4352]
}

// Where entries are looked up: made once a picture. From the last entry down, so that a slot holds its lowest index,
// and no link leads to entry 0: a link of 0 is none.
pub(crate) fn hints_of(entries: &Entries) -> [u8; 4352]
    requires { 1 ≤ entries.now.size }
    ensures { Hints entries.now.size (pixels entries.now.bytes.now) result }
{
    let mut hints = no_hints(entries);
    // By the index: it is itself what is written, and gives one of the two places.
    for i in (0..entries.size).rev() {
        let s = slot(Word::at(entries.bytes, i));
        hints[4096 + i] = hints[s];
        hints[s] = i as u8;
    }
    hints
}
