// Scratch on the stack, made once and lent.
ghost use Rattle.std.specs.Prelude.{◌≡◌, ◌*◌, ◌%◌, ◌≤◌, length};
ghost use Rattle.store.specs.Stage.{Same};

use pixel::replace::fill;
use pixel::word::Word;

// The pixels of one row in the place of another's. As words: a copy of bytes becomes C's `memmove` where nothing tells
// the compiler that the two lie apart, and a host without a C library would have to bring it beside `memcpy`.
pub fn copy_row(from: &[u8], to: &mut [u8])
    requires { (length from.now ≡ length to.old) × (length from.now % 4 ≡ 0) }
    ensures { to.new ≡ from.now }
{
    fill(to, 0, from.len() / 4, |i: usize| Word::at(from, i));
}

// `row` has room for the widest row, and `rows` for two, one after the other.
#[derive(Drop)]
pub struct Scratch {
    pub row: [u8; 65536],
    pub rows: [u8; 131072],
    pub ghost one: { length row ≡ 65536 },
    pub ghost two: { length rows ≡ 131072 },
}

impl Scratch {
    // The row, of `width` pixels.
    pub fn front(&self, width: usize) -> &[u8]
        requires { width ≤ 16384 }
        ensures { (length result.now ≡ 4 * width) × Same width self.now.row result.now }
    {
        &self.row[..4 * width]
    }
}
