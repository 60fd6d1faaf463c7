// The records of a valid chain.
ghost use Rattle.std.specs.Prelude.{◌≡◌, ◌+◌, ◌<◌, ◌≤◌, length};
ghost use Rattle.format.specs.Sizes.{Sized};
ghost use Rattle.format.specs.Chain.{kind_of};
ghost use Rattle.format.specs.Stages.{data_of};
ghost use Rattle.format.specs.ValidStep.{ValidStep};
ghost use Rattle.chain.specs.Valid.{Valid, steps_of, pixels_in, records_in};

use crate::Chain;
use format::{Step, TransformType};
use pixel::block::Blocks;
use pixel::entries::Entries;

// A chain with data that it is valid for: what a call works by.
#[derive(Clone, Copy)]
pub struct ValidChain<'a> {
    pub chain: Chain,
    pub data: &'a [u8],
    pub ghost valid: { Valid chain «data».now },
}

// One of its records, with the height of its picture.
#[derive(Clone, Copy)]
pub struct Record<'a> {
    pub step: Step,
    pub height: usize,
    pub data: &'a [u8],
    pub ghost sized: { Sized step.width height },
    pub ghost valid: { ValidStep step height (length «data».now) },
}

// The part of the data that a record names.
pub fn part_of(data: &[u8], s: Step) -> &[u8]
    requires { s.offset + s.length ≤ length «data».now }
    ensures { result.now ≡ data_of s «data».now }
{
    &data[s.offset..s.offset + s.length]
}

impl<'a> ValidChain<'a> {
    // How many pixels the picture has.
    pub fn pixels(&self) -> usize
        ensures { (result ≡ pixels_in self.now.chain) × (result ≤ 268435456) }
    {
        self.chain.height * self.chain.width.0
    }

    // How many records the strip has.
    pub fn records(&self) -> usize
        ensures { (result ≡ records_in self.now.chain) × (result ≤ 268435456) }
    {
        self.chain.height * self.chain.strip.0
    }

    // Record k.
    pub fn record(&self, k: usize) -> Record<'a>
        requires { k < self.now.chain.count }
        ensures { (result.step ≡ steps_of self.now.chain k) × (result.height ≡ self.now.chain.height)
            × (result.«data».now ≡ self.now.«data».now) }
    {
        Record {
            step: self.chain.steps[k],
            height: self.chain.height,
            data: self.data,
        }
    }
}

impl<'a> Record<'a> {
    // Its kind.
    pub fn transform_type(&self) -> TransformType
        ensures { self.now.step.kind ≡ kind_of result }
    {
        self.step.transform_type()
    }

    // The part of the data that it names.
    pub fn part(&self) -> &'a [u8]
        ensures { result.now ≡ data_of self.now.step self.now.«data».now }
    {
        part_of(self.data, self.step)
    }

    // Its blocks. Blocks and entries are asked for where the kind is known: an enum that has them would be matched once
    // more wherever a caller holds the record's number alone.
    pub fn blocks(&self) -> Blocks<'a>
        requires { self.now.step.kind ≤ 1 }
        ensures { (result.width ≡ self.now.step.width) × (result.height ≡ self.now.height)
            × (result.bits ≡ self.now.step.bits) × (result.bytes.now ≡ data_of self.now.step self.now.«data».now) }
    {
        Blocks {
            width: self.step.width,
            height: self.height,
            bits: self.step.bits,
            bytes: self.part(),
        }
    }

    // Its color table.
    pub fn entries(&self) -> Entries<'a>
        requires { self.now.step.kind ≡ 3 }
        ensures { (result.size ≡ self.now.step.size) × (result.bytes.now ≡ data_of self.now.step self.now.«data».now) }
    {
        Entries {
            bytes: self.part(),
            size: self.step.size,
        }
    }
}
