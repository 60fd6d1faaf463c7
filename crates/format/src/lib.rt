// What the format says, as definitions in specs/ and laws in proofs/. The code is the types that definitions and code
// share.
#![tactic(auto)]

ghost use Rattle.std.specs.Prelude.{◌≡◌, ◌<◌, ◌≤◌, MatchResult};
ghost use Rattle.format.specs.declared.Refusal.TheVariants.{UnknownKind};
ghost use Rattle.format.specs.Chain.{kind_of};
ghost use Rattle.format.specs.Refusals.{number};

// A pixel by value.
#[derive(Clone, Copy, PartialEq, Eq)]
pub struct Pixel {
    pub red: u8,
    pub green: u8,
    pub blue: u8,
    pub alpha: u8,
}

// A record of a chain: its fields, and the current width where its turn comes. `kind` is a number, since one over 3 is
// read and refused. `zero` is its last four bytes.
#[derive(Clone, Copy, Default)]
pub struct Step {
    pub kind: u32,
    pub bits: u32,
    pub size: usize,
    pub offset: usize,
    pub length: usize,
    pub zero: usize,
    pub width: usize,
}

// What a record's kind stands for.
#[derive(Clone, Copy, PartialEq, Eq)]
pub enum TransformType {
    Predictor = 0,
    Color = 1,
    SubtractGreen = 2,
    ColorTable = 3,
}

// A kind over 3 is refused.
impl TryFrom<u32> for TransformType {
    type Error = Refusal;

    ghost try_from_gives = { λ kind result. MatchResult result (λ t. kind ≡ kind_of t)
        (λ refusal. (3 < kind) × (refusal ≡ UnknownKind)) };

    fn try_from(kind: u32) -> Result<TransformType, Refusal> {
        match kind {
            0 => Ok(TransformType::Predictor),
            1 => Ok(TransformType::Color),
            2 => Ok(TransformType::SubtractGreen),
            3 => Ok(TransformType::ColorTable),
            _ => Err(Refusal::UnknownKind),
        }
    }
}

impl Step {
    // Of a record whose kind is not refused.
    pub fn transform_type(&self) -> TransformType
        requires { self.now.kind ≤ 3 }
        ensures { self.now.kind ≡ kind_of result }
    {
        TransformType::try_from(self.kind).unwrap()
    }
}

// Why a call refuses, with the papers' number.
#[derive(Clone, Copy, PartialEq, Eq)]
pub enum Refusal {
    // Width or height is not 1 to 16384.
    Size = 1,
    // The chain's length is not a multiple of 16, or over 64.
    ChainLength = 2,
    // A record's kind is over 3.
    UnknownKind = 3,
    // Its kind was used before.
    KindAgain = 4,
    // Its bits, size, offset or a zero byte are not as tabled.
    NotTabled = 5,
    // Its length is not as tabled.
    WrongLength = 6,
    // Its part goes beyond the data.
    BeyondData = 7,
    // A buffer is too short.
    ShortBuffer = 8,
    // The point to be painted is outside.
    Outside = 9,
    // A color map's length is 0, over 1024 or not a multiple of 4.
    MapLength = 10,
    // A pixel that reaches the table has no entry.
    NoEntry = 21,
    // The same, in a record that the painted point reaches.
    NoRecord = 22,
    // A list of colors has a color twice, or not 4 to 1024 bytes in fours.
    ColorList = 23,
    // A counter would pass 2^64 - 1.
    FullCounter = 24,
}

impl From<Refusal> for u32 {
    ghost from_gives = { λ refusal n. n ≡ number refusal };

    fn from(refusal: Refusal) -> u32 {
        refusal as u32
    }
}
