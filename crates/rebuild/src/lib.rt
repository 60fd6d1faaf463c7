// Rebuilding a picture in one buffer whose front holds the strip: each record is undone, last record first, row by row.
#![tactic(auto)]

pub mod row;

ghost use Rattle.std.specs.Prelude.{◌≡◌};
ghost use Rattle.format.specs.Refusals.{returned};
ghost use Rattle.format.specs.Calls.{rebuild_answer, rebuild_image};
ghost use Rattle.rebuild.specs.Rows.{HasRoom, undone};

use crate::row::Undoing;
use chain::read_chain;
use chain::record::Record;
use format::{Refusal, TransformType};

// The inverse of a record's transform. Two loops, since a range and its reverse are of two types. That the image has
// room is asked here and of each row: a struct around the lent image would have to say what of it stays.
#[tactic(auto, using(crate::proofs::Rows::none, crate::proofs::Rows::down_turn))]
fn undo(record: &Record, image: &mut [u8])
    requires { HasRoom «record».now image.old }
    ensures { image.new ≡ undone «record».now image.old }
{
    let undoing = Undoing::new(record);
    if record.transform_type() == TransformType::ColorTable {
        for y in (0..record.height).rev() {
            undoing.rebuild_row(y, image);
        }
    } else {
        for y in 0..record.height {
            undoing.rebuild_row(y, image);
        }
    }
}

// Tests 1 to 8, then the records.
#[tactic(auto, unfolding(format::specs::Calls::rebuild_answer, format::specs::Calls::rebuild_image))]
pub fn rebuild(
    width: usize,
    height: usize,
    chain: &[u8],
    data: &[u8],
    image: &mut [u8],
) -> Result<(), Refusal>
    ensures value { returned result ≡ rebuild_answer width height chain.now «data».now image.old }
    ensures image_after { image.new ≡ rebuild_image width height chain.now «data».now
        image.old }
{
    let read = read_chain(width, height, chain, data)?;
    if image.len() < 4 * (height * width) {
        return Err(Refusal::ShortBuffer);
    }
    for k in (0..read.chain.count).rev() {
        undo(&read.record(k), image);
    }
    Ok(())
}
