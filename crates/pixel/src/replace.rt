// Loops over a buffer, whatever rule gives the new cells. Each goes from one index up to another, as a slice's range
// does; the two stay numbers, since contracts and closures name each.
ghost use Rattle.std.specs.Prelude.{◌≡◌, ℕ, ◌+◌, ◌-◌, ◌*◌, ◌≤◌, length};
ghost use Rattle.format.specs.Picture.{pixels};
ghost use Rattle.format.specs.declared.Pixel.{Pixel};
ghost use Rattle.pixel.specs.Cells.{pixel_cells, Lawful, Rule, run, given, of_its_own};
ghost use Rattle.pixel.specs.Calls.{Asked, Gives, AskedAt, GivesAt, AskedOf, GivesOf};
ghost use Rattle.pixel.specs.Calls.{AskedLeft, GivesLeft, GivesBack};

use crate::cell::Cell;
use crate::pixel::{pixel_at, put_pixel};
use crate::word::Word;
use format::Pixel;

// Cells `from` up to `to` replaced in order, each by what `rule` gives of the buffer as it is by then.
pub fn replace<C: Cell, F: Fn(&[u8], usize) -> C>(xs: &mut [u8], from: usize, to: usize, rule: F)
    requires inside { (from ≤ to) × (C.cells.size * to ≤ length xs.old) }
    requires asked { Asked (F.pre rule) (length xs.old) from to }
    ensures { (h : Rule C.Value) → Gives C.cells C.value (F.post rule) (length xs.old) from to h
        → xs.new ≡ run C.cells h from (to - from) xs.old }
{
    for i in from..to {
        let v = rule(xs, i);
        v.put(xs, i);
    }
}

// The same where the index alone gives the new cell.
pub fn fill<C: Cell, F: Fn(usize) -> C>(xs: &mut [u8], from: usize, to: usize, cell: F)
    requires inside { (from ≤ to) × (C.cells.size * to ≤ length xs.old) }
    requires asked { AskedAt (F.pre cell) from to }
    ensures { (f : ℕ → C.Value) → GivesAt C.value (F.post cell) from to f
        → xs.new ≡ run C.cells (given f) from (to - from) xs.old }
{
    replace(
        xs,
        from,
        to,
        |_: &[u8], i: usize| -> C
            requires { F.pre cell i }
            ensures { F.post cell i result }
        { cell(i) },
    );
}

// Pixels `from` up to `to`, each made of the one in its place: read and written as words, so that the loop is
// vectorized.
#[inline(always)]
pub fn update<F: Fn(Pixel) -> Pixel>(xs: &mut [u8], from: usize, to: usize, make: F)
    requires inside { (from ≤ to) × (4 * to ≤ length xs.old) }
    requires asked { AskedOf (F.pre make) }
    ensures { (t : Pixel → Pixel) → GivesOf (F.post make) t
        → xs.new ≡ run pixel_cells (of_its_own t) from (to - from) xs.old }
{
    replace(
        xs,
        from,
        to,
        |xs: &[u8], i: usize| -> Word
            requires { AskedOf (F.pre make) × (4 * i + 4 ≤ length xs.now) }
            ensures { F.post make (pixels xs.now i) result }
        { Word::from(make(Pixel::from(Word::at(xs, i)))) },
    );
}

// Pixels `from` up to `to` in order, where `rule` is given the pixel before as well: it is not read again.
pub fn replace_left<F: Fn(&[u8], usize, Pixel) -> Pixel>(
    xs: &mut [u8],
    from: usize,
    to: usize,
    rule: F,
)
    requires inside { (1 ≤ from) × (from ≤ to) × (4 * to ≤ length xs.old) }
    requires asked { AskedLeft (F.pre rule) (length xs.old) from to }
    ensures { (h : Rule Pixel) → GivesLeft (F.post rule) (length xs.old) from to h
        → xs.new ≡ run pixel_cells h from (to - from) xs.old }
{
    let mut left = pixel_at(xs, from - 1);
    for i in from..to {
        left = rule(xs, i, left);
        put_pixel(xs, i, left);
    }
}

// Cells `from` up to `to` from the last to the first.
pub fn replace_back<C: Cell, F: Fn(&[u8], usize) -> C>(
    xs: &mut [u8],
    from: usize,
    to: usize,
    rule: F,
)
    requires inside { (from ≤ to) × (C.cells.size * to ≤ length xs.old) }
    requires asked { Asked (F.pre rule) (length xs.old) from to }
    ensures { Lawful C.cells → (f : ℕ → C.Value) → GivesBack C.cells C.value (F.post rule) xs.old from to f
        → xs.new ≡ run C.cells (given f) from (to - from) xs.old }
{
    for i in (from..to).rev() {
        rule(xs, i).put(xs, i);
    }
}
