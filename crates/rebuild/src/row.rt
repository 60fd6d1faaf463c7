// One row of one record, in the one buffer.
ghost use Rattle.std.specs.Prelude.{◌≡◌, ◌<◌};
ghost use Rattle.format.specs.Sizes.{Holds};
ghost use Rattle.predictor.specs.Picture.{predictor_row};
ghost use Rattle.rebuild.specs.Rows.{HasRoom, row_rebuilt};
ghost use Rattle.rebuild.specs.Inverse.{Inverts};

use chain::record::Record;
use color_table::table::columns_of_table;
use color_table::unpack::unpack_row_at;
use format::TransformType;
use pixel::block::Blocks;
use pixel::stride::{Expanded, packed_width};

// What a kind's rows are rebuilt by: blocks, or the columns of a table's indices, which are made once for all rows.
#[derive(Drop)]
pub enum Inverse<'a> {
    Predictor(Blocks<'a>),
    Color(Blocks<'a>),
    SubtractGreen,
    ColorTable([u8; 8192]),
}

// Row y of a predicted picture. Not inlined: beside what a loop over rows holds, the loops of a mode run out of
// registers.
#[inline(never)]
fn rebuild_predicted(image: &mut [u8], blocks: &Blocks, y: usize)
    requires { Holds blocks.now.width blocks.now.height image.old × (y < blocks.now.height) }
    ensures { image.new ≡ predictor_row blocks.now.width blocks.now.bits blocks.now.bytes.now y image.old }
{
    predictor::inverse::rebuild_row_at(image, blocks, y);
}

// A record with its inverse.
#[derive(Drop)]
pub struct Undoing<'a> {
    pub record: Record<'a>,
    pub inverse: Inverse<'a>,
    pub ghost inverts: { Inverts «record» inverse },
}

impl<'a> Undoing<'a> {
    pub fn new(record: &Record<'a>) -> Self
        ensures { result.«record» ≡ «record».now }
    {
        let inverse = match record.transform_type() {
            TransformType::Predictor => Inverse::Predictor(record.blocks()),
            TransformType::Color => Inverse::Color(record.blocks()),
            TransformType::SubtractGreen => Inverse::SubtractGreen,
            TransformType::ColorTable => Inverse::ColorTable(columns_of_table(&record.entries())),
        };
        Undoing {
            record: *record,
            inverse,
        }
    }

    // Row y. Rows go from the top, since a row is predicted from the row above it; those of a table from the bottom,
    // since a row's columns may lie where packed pixels of the rows above it stand. Inlined, so that a loop over rows
    // finds the kind once.
    #[inline(always)]
    #[tactic(auto, using(crate::proofs::Rows::rule_0, crate::proofs::Rows::rule_1, crate::proofs::Rows::rule_2))]
    pub fn rebuild_row(&self, y: usize, image: &mut [u8])
        requires { HasRoom self.now.«record» image.old × (y < self.now.«record».height) }
        ensures { image.new ≡ row_rebuilt self.now.«record» y image.old }
    {
        let step = self.record.step;
        match &self.inverse {
            Inverse::Predictor(blocks) => rebuild_predicted(image, blocks, y),
            Inverse::Color(blocks) => color::color::rebuild_row_at(image, blocks, y),
            Inverse::SubtractGreen => {
                color::subtract_green::rebuild_row_at(image, step.width, y)
            },
            Inverse::ColorTable(columns) => {
                let expanded = Expanded(step.width);
                let packed = packed_width(expanded, step.size);
                unpack_row_at(image, y, packed, expanded, step.size, columns)
            },
        }
    }
}
