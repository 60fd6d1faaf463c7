// Where rows stand in the bytes of a picture.
ghost use Rattle.std.specs.Prelude.{◌≡◌, ◌+◌, ◌*◌, ◌<◌};

use std::ops::Range;

// The bytes of row y, of w pixels a row.
pub fn row_bytes(y: usize, w: usize) -> Range<usize>
    requires { 4 * (y * w) + 4 * w < 18446744073709551616 }
    ensures { (result.start ≡ 4 * (y * w)) × (result.end ≡ 4 * (y * w) + 4 * w) }
{
    let from = 4 * (y * w);
    from..from + 4 * w
}
