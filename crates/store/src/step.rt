// One record's transform of one row, which stands in the scratch row. The scratch rows hold the row above where the
// predictor needs it; their second half is free.
ghost use Rattle.std.specs.Prelude.{◌≡◌, true, ◌*◌, ◌<◌, ◌≤◌, length};
ghost use Rattle.format.specs.Picture.{pixels};
ghost use Rattle.format.specs.ColorTable.{have_entries};
ghost use Rattle.store.specs.Stage.{Takes, PredictedRow, PackedBy, Same, Advanced};

use crate::scratch::{Scratch, copy_row};
use crate::storing::Storing;
use color_table::lookup::Lookup;
use format::TransformType;
use pixel::block::Blocks;
use pixel::stride::{Expanded, packed_width};

// Residuals, from the row above and the row, which then is the row above of the next.
// The rows come as slices here and in `pack_accepted`: where a struct has ghost fields, the check does not lend parts
// of two of its fields at once.
fn predict_row(blocks: &Blocks, y: usize, row: &mut [u8], rows: &mut [u8])
    requires { (y < blocks.now.height) × (4 * blocks.now.width ≤ length row.old)
        × (8 * blocks.now.width ≤ length rows.old) }
    ensures made { PredictedRow blocks.now y row.old rows.old row.new }
    ensures left { Same blocks.now.width row.old rows.new }
{
    let bytes = 4 * blocks.width;
    let row = &mut row[..bytes];
    copy_row(row, &mut rows[bytes..2 * bytes]);
    predictor::forward::store_row(&rows[..2 * bytes], row, blocks, y);
    let (above, behind) = rows.split_at_mut(bytes);
    copy_row(&behind[..bytes], above);
}

// Indices, packed in `free` and copied back. Not inlined: where the compiler sees that both are parts of one scratch, a
// fixed way apart, it makes `memmove` of a copy of words too.
#[inline(never)]
fn pack_accepted(lookup: &Lookup, width: usize, row: &mut [u8], free: &mut [u8])
    requires room { (1 ≤ width) × (width ≤ 16384) × (length row.old ≡ 65536) × (length free.old ≡ 65536) }
    requires accepted { have_entries lookup.now.entries.size (pixels lookup.now.entries.bytes.now) width
        (pixels row.old) ≡ true }
    ensures { PackedBy lookup.now.entries.size (pixels lookup.now.entries.bytes.now) width row.old row.new }
{
    lookup.pack_row(&row[..4 * width], free);
    let n = 4 * packed_width(Expanded(width), lookup.entries.size).0;
    copy_row(&free[..n], &mut row[..n]);
}

impl<'a> Storing<'a> {
    // The row of stage k becomes the row of stage k + 1.
    pub fn advance(&self, k: usize, y: usize, scratch: &mut Scratch)
        requires { (k < self.now.opened.chain.count) × (y < self.now.opened.chain.height)
            × Takes self.now.opened k scratch.old.row }
        ensures { Advanced self.now.opened k y scratch.old.row scratch.old.rows scratch.new.row scratch.new.rows }
    {
        let record = self.opened.record(k);
        let width = record.step.width;
        match record.transform_type() {
            TransformType::Predictor => {
                predict_row(&record.blocks(), y, &mut scratch.row, &mut scratch.rows);
            }
            TransformType::Color => {
                color::color::store_row(&mut scratch.row, &record.blocks(), y);
            }
            TransformType::SubtractGreen => {
                color::subtract_green::store_row(&mut scratch.row, width);
            }
            TransformType::ColorTable => {
                let free = &mut scratch.rows[65536..];
                pack_accepted(self.lookup(k), width, &mut scratch.row, free);
            }
        }
    }
}
