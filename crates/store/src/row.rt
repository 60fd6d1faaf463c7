// A row of the picture after the first records of a chain. That row y is inside is asked wherever one is named, as of
// any index.
ghost use Rattle.std.specs.Prelude.{◌≡◌, ◌*◌, ◌<◌, ◌≤◌, length};
ghost use Rattle.format.specs.Picture.{pixels};
ghost use Rattle.format.specs.Chain.{narrowed};
ghost use Rattle.pixel.specs.Held.{HoldsRow};
ghost use Rattle.chain.specs.Valid.{width_after};
ghost use Rattle.store.specs.Stage.{step_of, IsTable};
ghost use Rattle.store.specs.Turns.{AcceptsIn};

use crate::scratch::{Scratch, copy_row};
use crate::storing::Storing;
use pixel::row::row_bytes;

// The first `count` records, which accept the picture, and the width that its rows have after them.
#[derive(Clone, Copy)]
pub struct Accepted<'a> {
    pub storing: &'a Storing<'a>,
    pub count: usize,
    pub width: usize,
    pub ghost few: { count ≤ storing.now.opened.chain.count },
    pub ghost wide: { width ≡ width_after storing.now.opened.chain count },
    pub ghost accepts: { AcceptsIn storing.now count },
}

impl<'a> Storing<'a> {
    // The first `count` records, where they accept the picture.
    pub fn accepted_by(&self, count: usize) -> Accepted
        requires { (count ≤ self.now.opened.chain.count) × AcceptsIn self.now count }
        ensures { (result.storing.now ≡ self.now) × (result.count ≡ count) }
    {
        let chain = &self.opened.chain;
        let width = if count < chain.count {
            chain.steps[count].width
        } else {
            chain.strip.0
        };
        Accepted {
            storing: self,
            count,
            width,
        }
    }

    // Row y of the picture.
    fn picture_row(&self, y: usize) -> &[u8]
        requires { y < self.now.opened.chain.height }
        ensures { HoldsRow (pixels self.now.picture.now) y self.now.opened.chain.width.0 result.now
            × (length result.now ≡ 4 * self.now.opened.chain.width.0) }
    {
        &self.picture[row_bytes(y, self.opened.chain.width.0)]
    }
}

impl<'a> Accepted<'a> {
    ghost use Rattle.store.specs.Made.{chain_of, height_of, RowIn, StartedIn, AboveIn, RowMade};

    // Row y of the picture packed in `out`, where the first record is a table.
    pub fn pack_first(&self, y: usize, out: &mut [u8])
        requires first { IsTable (chain_of self.now) 0 × (1 ≤ self.now.count) }
        requires inside { (y < height_of self.now) × (4 * narrowed (step_of (chain_of self.now) 0) ≤ length out.old) }
        ensures { RowIn self.now 1 y out.new }
    {
        let storing = self.storing;
        storing.lookup(0).pack_row(storing.picture_row(y), out);
    }

    // Row y made ready in `row`: as it is in the picture, or packed where the first record is a table. The number of
    // records done is returned.
    fn start_row(&self, y: usize, row: &mut [u8]) -> usize
        requires { (y < height_of self.now) × (length row.old ≡ 65536) }
        ensures { StartedIn self.now y result row.new }
    {
        if 0 < self.count && self.storing.table_first() {
            self.pack_first(y, row);
            return 1;
        }
        let from = self.storing.picture_row(y);
        copy_row(from, &mut row[..from.len()]);
        0
    }

    // Row y after these records, made in the scratch row.
    pub fn make_row(&self, y: usize, scratch: &mut Scratch)
        requires { (y < height_of self.now) × AboveIn self.now 0 y scratch.old.rows }
        ensures made { RowMade self.now y scratch.new.row }
        ensures left { AboveIn self.now self.now.count y scratch.new.rows }
    {
        let done = self.start_row(y, &mut scratch.row);
        for k in done..self.count {
            self.storing.advance(k, y, scratch);
        }
    }
}
