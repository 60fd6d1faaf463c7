// Groups of sixteen pixels: pictures are runs of few colors, so that many groups are of one or two.
ghost use Rattle.std.specs.Prelude.{◌≡◌, true, ◌+◌, ◌-◌, ◌*◌, ◌%◌, ◌≤◌, length};
ghost use Rattle.format.specs.Picture.{pixels};
ghost use Rattle.color_table.specs.OneOf.{EachOf};

use pixel::word::Word;

// Row and colors are parameters: a caller would make a struct of them to ask one thing, and `pass` is called with one
// color as both.

// Whether each of the eight pixels from i on is a or b: with no branch, so that they are compared at once.
fn eight_of(row: &[u8], i: usize, a: Word, b: Word) -> bool
    requires { 4 * (i + 8) ≤ length row.now }
    ensures { result ≡ true → EachOf a b (pixels row.now) i 8 }
{
    let mut all = true;
    for k in 0..8 {
        let w = Word::at(row, i + k);
        all = all & ((w == a) | (w == b));
    }
    all
}

// The same of a group. It is two halves, since a function of sixteen pixels is not inlined.
#[inline(always)]
pub(crate) fn group_of(row: &[u8], i: usize, a: Word, b: Word) -> bool
    requires { 4 * (i + 16) ≤ length row.now }
    ensures { result ≡ true → EachOf a b (pixels row.now) i 16 }
{
    eight_of(row, i, a, b) & eight_of(row, i + 8, a, b)
}

// The first group from `from` on with a pixel that is neither a nor b, or `to`.
pub fn pass(row: &[u8], from: usize, to: usize, a: Word, b: Word) -> usize
    requires { (from % 16 ≡ 0) × (to % 16 ≡ 0) × (from ≤ to) × (4 * to ≤ length row.now) }
    ensures { (result % 16 ≡ 0) × (from ≤ result) × (result ≤ to)
        × EachOf a b (pixels row.now) from (result - from) }
{
    let other = (from / 16..to / 16).find(|g| !group_of(row, 16 * *g, a, b));
    16 * other.unwrap_or(to / 16)
}
