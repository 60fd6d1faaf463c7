// Tests 3 to 7: whether a record is as the table of kinds says.
ghost use Rattle.std.specs.Prelude.{◌≡◌, true, ◌<◌, ◌≤◌};
ghost use Rattle.format.specs.Chain.{narrowed};
ghost use Rattle.format.specs.Refusals.{blocks_tabled, green_tabled, table_tabled, tabled, block_bytes};
ghost use Rattle.format.specs.Refusals.{tabled_length, checked};

use format::{Refusal, Step, TransformType};
use pixel::block::subsample_size;
use pixel::stride::{Expanded, packed_width};

// A record of a known kind, with the height of its picture.
#[derive(Clone, Copy)]
pub(crate) struct Known {
    pub(crate) step: Step,
    pub(crate) height: usize,
    pub(crate) ghost known: { step.kind ≤ 3 },
    pub(crate) ghost narrow: { step.width ≤ 16384 },
    pub(crate) ghost low: { height ≤ 16384 },
}

// Bits and size of a record that has blocks.
fn blocks_tabled(s: Step) -> bool
    ensures { result ≡ blocks_tabled s }
{
    (2..=9).contains(&s.bits) && s.size == 0
}

fn green_tabled(s: Step) -> bool
    ensures { result ≡ green_tabled s }
{
    s.bits == 0 && s.size == 0 && s.offset == 0
}

fn table_tabled(s: Step) -> bool
    ensures { result ≡ table_tabled s }
{
    s.bits == 0 && (1..=256).contains(&s.size)
}

impl Known {
    // Whether bits, size, offset and the zero bytes are as tabled.
    #[tactic(auto, unfolding(format::specs::Refusals::tabled, format::specs::Chain::by_kind))]
    fn fields_tabled(&self) -> bool
        ensures { result ≡ tabled self.now.step }
    {
        let s = self.step;
        s.zero == 0
            && match s.transform_type() {
                TransformType::Predictor | TransformType::Color => blocks_tabled(s),
                TransformType::SubtractGreen => green_tabled(s),
                TransformType::ColorTable => table_tabled(s),
            }
    }

    // Four bytes for each block.
    fn block_bytes(&self) -> usize
        requires { self.now.step.bits ≤ 9 }
        ensures { result ≡ block_bytes self.now.step self.now.height }
    {
        let s = self.step;
        4 * (subsample_size(self.height, s.bits) * subsample_size(s.width, s.bits))
    }

    // The length as tabled, where the other fields are.
    #[tactic(auto, unfolding(format::specs::Refusals::tabled_length, format::specs::Chain::by_kind))]
    fn tabled_length(&self) -> usize
        requires { tabled self.now.step ≡ true }
        ensures { result ≡ tabled_length self.now.step self.now.height }
    {
        let s = self.step;
        match s.transform_type() {
            TransformType::Predictor | TransformType::Color => self.block_bytes(),
            TransformType::SubtractGreen => 0,
            TransformType::ColorTable => 4 * s.size,
        }
    }

    // The current width after the record.
    #[tactic(auto, unfolding(format::specs::Chain::narrowed))]
    pub(crate) fn width_after(&self) -> usize
        ensures { result ≡ narrowed self.now.step }
    {
        let s = self.step;
        match s.transform_type() {
            TransformType::ColorTable => packed_width(Expanded(s.width), s.size).0,
            _ => s.width,
        }
    }
}

// The record, or the first of these tests that refuses it.
#[tactic(auto, unfolding(format::specs::Refusals::checked))]
pub(crate) fn check(s: Step, again: bool, height: usize, data: &[u8]) -> Result<Step, Refusal>
    requires { (s.width ≤ 16384) × (height ≤ 16384) × (s.offset < 4294967296) × (s.length < 4294967296) }
    ensures { result ≡ checked again height «data».now s }
{
    TransformType::try_from(s.kind)?;
    if again {
        return Err(Refusal::KindAgain);
    }
    let known = Known { step: s, height };
    if !known.fields_tabled() {
        return Err(Refusal::NotTabled);
    }
    if s.length != known.tabled_length() {
        return Err(Refusal::WrongLength);
    }
    if data.len() < s.offset + s.length {
        return Err(Refusal::BeyondData);
    }
    Ok(s)
}
