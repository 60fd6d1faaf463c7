// The entries of a color table.
ghost use Rattle.std.specs.Prelude.{◌*◌, ◌≤◌, length};

// Colors of four bytes, by their index. `size` stands beside the bytes, as in a chain's record: all that is said of a
// table names it.
#[derive(Clone, Copy)]
pub struct Entries<'a> {
    pub bytes: &'a [u8],
    pub size: usize,
    pub ghost most: { size ≤ 256 },
    pub ghost there: { 4 * size ≤ length bytes.now },
}
