// Four cells replaced at once: they are made before one is written, since the compiler has to assume that a write
// changes what the next one is made of.
ghost use Rattle.std.specs.Prelude.{◌≡◌, ℕ, ◌+◌, ◌*◌, ◌^◌, ◌<◌, ◌≤◌, length, map};
ghost use Rattle.pixel.specs.Cells.{run, given};
ghost use Rattle.color_table.specs.Four.{four_of};

use pixel::cell::Cell;

// Cells j to j + 3. They are an array: a closure that made them would not be inlined four times.
pub(crate) fn put_four<C: Cell>(xs: &mut [u8], j: usize, cells: [C; 4])
    requires inside { C.cells.size * (j + 4) ≤ length xs.old }
    requires fits { j + 3 < 2 ^ 64 }
    ensures { (f : ℕ → C.Value) → map C.value cells ≡ four_of f j → xs.new ≡ run C.cells (given f) j 4 xs.old }
{
    let [a, b, c, d] = cells;
    a.put(xs, j);
    b.put(xs, j + 1);
    c.put(xs, j + 2);
    d.put(xs, j + 3);
}
