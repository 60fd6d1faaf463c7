// The header of a case, or a call of a list: 16 bytes, little-endian (oracle/src/list.rs).
ghost use Rattle.std.specs.Prelude.{◌+◌, ◌≤◌};

use crate::failure::Failure;
use std::fmt;

// Five transforms by themselves and four calls.
#[derive(Clone, Copy)]
pub enum Kind {
    Predictor,
    Color,
    SubtractGreen,
    ColorTable,
    ColorMap,
    Rebuild,
    Store,
    Retouches,
    Reports,
}

// By their numbers in the list.
pub const KINDS: [Kind; 9] = [
    Kind::Predictor,
    Kind::Color,
    Kind::SubtractGreen,
    Kind::ColorTable,
    Kind::ColorMap,
    Kind::Rebuild,
    Kind::Store,
    Kind::Retouches,
    Kind::Reports,
];

impl TryFrom<u8> for Kind {
    type Error = Failure;

    fn try_from(number: u8) -> Result<Kind, Failure> {
        KINDS
            .get(number as usize)
            .copied()
            .ok_or(Failure::Malformed)
    }
}

impl fmt::Display for Kind {
    fn fmt<W: fmt::Write>(&self, f: &mut fmt::Formatter<W>) -> fmt::Result {
        f.write_str(match self {
            Kind::Predictor => "predictor",
            Kind::Color => "color",
            Kind::SubtractGreen => "subtract green",
            Kind::ColorTable => "color table",
            Kind::ColorMap => "color map",
            Kind::Rebuild => "rebuild by a chain",
            Kind::Store => "store by a chain",
            Kind::Retouches => "lists of retouches",
            Kind::Reports => "lists of reports",
        })
    }
}

// A transform by itself, with the one record of its chain: the header has kind, bits, size and length where a record
// has them, and the data starts at offset 0.
#[derive(Clone, Copy)]
pub struct Single {
    pub record: [u8; 16],
    pub size: u16,
    pub width: u32,
    pub height: u32,
    pub data_len: usize,
    pub input_len: usize,
}

// A picture's size, and the lengths of the parts that follow: chain, data, input and output. Of a list of retouches
// these two are picture and strip.
#[derive(Clone, Copy)]
pub struct OnChain {
    pub width: u32,
    pub height: u32,
    pub chain_len: usize,
    pub data_len: usize,
    pub input_len: usize,
    pub output_len: usize,
}

// A call of `letchwater` on a chain.
#[derive(Clone, Copy)]
pub struct Call {
    pub answer: u32,
    pub parts: OnChain,
}

// A list of retouches.
#[derive(Clone, Copy)]
pub struct Retouches {
    pub calls: u8,
    pub parts: OnChain,
}

// A list of reports.
#[derive(Clone, Copy)]
pub struct Reports {
    pub calls: u8,
    pub colors_len: usize,
    pub counters_len: usize,
}

// These two are the replay's own, since no code of the library that it tests reads the list; two, since no trait has
// `from_le_bytes`.
fn u16_at(header: &[u8; 16], at: usize) -> u16
    requires { at + 2 ≤ 16 }
{
    u16::from_le_bytes(*header[at..].first_chunk().unwrap())
}

pub fn u32_at(header: &[u8; 16], at: usize) -> u32
    requires { at + 4 ≤ 16 }
{
    u32::from_le_bytes(*header[at..].first_chunk().unwrap())
}

impl From<&[u8; 16]> for Single {
    fn from(header: &[u8; 16]) -> Single {
        let mut record = [0; 16];
        record[..4].copy_from_slice(&header[..4]);
        record[8..12].copy_from_slice(&header[8..12]);
        Single {
            record,
            size: u16_at(header, 2),
            width: u16_at(header, 4) as u32,
            height: u16_at(header, 6) as u32,
            data_len: u32_at(header, 8) as usize,
            input_len: u32_at(header, 12) as usize,
        }
    }
}

impl From<&[u8; 16]> for OnChain {
    fn from(header: &[u8; 16]) -> OnChain {
        OnChain {
            width: u16_at(header, 4) as u32,
            height: u16_at(header, 6) as u32,
            chain_len: u16_at(header, 2) as usize,
            data_len: u16_at(header, 8) as usize,
            input_len: u32_at(header, 12) as usize,
            output_len: u16_at(header, 10) as usize,
        }
    }
}

impl From<&[u8; 16]> for Call {
    fn from(header: &[u8; 16]) -> Call {
        Call {
            answer: header[1] as u32,
            parts: header.into(),
        }
    }
}

impl From<&[u8; 16]> for Retouches {
    fn from(header: &[u8; 16]) -> Retouches {
        Retouches {
            calls: header[1],
            parts: header.into(),
        }
    }
}

impl From<&[u8; 16]> for Reports {
    fn from(header: &[u8; 16]) -> Reports {
        Reports {
            calls: header[1],
            colors_len: u16_at(header, 2) as usize,
            counters_len: u16_at(header, 4) as usize,
        }
    }
}
