// A chain's bytes read once into plain values, or refused.
#![tactic(auto)]

mod known;
pub mod record;

ghost use Rattle.std.specs.Prelude.{IfOk, ◌≡◌, ◌+◌, ◌*◌, ◌%◌, ◌<◌, ◌≤◌, length};
ghost use Rattle.format.specs.Sizes.{Sized};
ghost use Rattle.format.specs.Chain.{le16, le32, record_at};
ghost use Rattle.format.specs.Refusals.{used_before, returned, in_range, size_refusal, input_refusal};
ghost use Rattle.format.specs.Calls.{pair_refusal};
ghost use Rattle.chain.specs.Reading.{Read, Opened};

use crate::known::{Known, check};
use crate::record::ValidChain;
use format::{Refusal, Step};
use pixel::stride::{Expanded, Packed};

// A valid chain as plain values, for a picture of its width and height. The first `count` steps are its records, in an
// array since there is no heap. `strip` is the strip's width, which is the current width after the last record.
#[derive(Clone, Copy)]
pub struct Chain {
    pub count: usize,
    pub steps: [Step; 4],
    pub width: Expanded,
    pub height: usize,
    pub strip: Packed,
}

// Little-endian numbers of 16 and of 32 bits, a function for each: no trait of the library's has `from_le_bytes`, and
// one of our own would take an impl for each.
fn le16(xs: &[u8], i: usize) -> usize
    requires { i + 2 ≤ length xs.now }
    ensures { (result ≡ le16 xs.now i) × (result < 65536) }
{
    u16::from_le_bytes(*xs[i..].first_chunk().unwrap()) as usize
}

pub fn le32(xs: &[u8], i: usize) -> usize
    requires { i + 4 ≤ length xs.now }
    ensures { (result ≡ le32 xs.now i) × (result < 4294967296) }
{
    u32::from_le_bytes(*xs[i..].first_chunk().unwrap()) as usize
}

#[tactic(auto, unfolding(format::specs::Chain::record_at))]
fn record_at(chain: &[u8], k: usize, width: usize) -> Step
    requires { 16 * k + 16 ≤ length chain.now }
    ensures { (result ≡ record_at chain.now k width) × (result.offset < 4294967296)
        × (result.length < 4294967296) }
{
    let i = 16 * k;
    Step {
        kind: chain[i] as u32,
        bits: chain[i + 1] as u32,
        size: le16(chain, i + 2),
        offset: le32(chain, i + 4),
        length: le32(chain, i + 8),
        zero: le32(chain, i + 12),
        width,
    }
}

// Whether the kind of record k occurs before it.
fn used_before(chain: &[u8], k: usize) -> bool
    requires { 16 * k + 16 ≤ length chain.now }
    ensures { result ≡ used_before chain.now k }
{
    (0..k).any(|j| chain[16 * j] == chain[16 * k])
}

fn read_records<'a>(
    width: usize,
    height: usize,
    chain: &[u8],
    data: &'a [u8],
) -> Result<ValidChain<'a>, Refusal>
    requires { Sized width height × (length chain.now % 16 ≡ 0) × (length chain.now ≤ 64) }
    ensures refusal { returned result ≡ input_refusal width height chain.now «data».now }
    ensures read { IfOk result (Read width height chain.now «data».now) }
{
    let mut steps = [Step::default(); 4];
    let count = chain.len() / 16;
    let mut current = width;
    // By the index: a record is read by its number, and the first that is refused ends the call.
    for k in 0..count {
        let s = record_at(chain, k, current);
        steps[k] = check(s, used_before(chain, k), height, data)?;
        current = Known { step: s, height }.width_after();
    }
    let chain = Chain {
        count,
        steps,
        width: Expanded(width),
        height,
        strip: Packed(current),
    };
    Ok(ValidChain { chain, data })
}

pub fn in_range(size: usize) -> bool
    ensures { result ≡ in_range size }
{
    (1..=16384).contains(&size)
}

// Test 1.
#[tactic(auto, unfolding(format::specs::Refusals::size_refusal))]
pub fn check_size(width: usize, height: usize) -> Result<(), Refusal>
    ensures refusal { returned result ≡ size_refusal width height }
    ensures sized { IfOk result (λ _. Sized width height) }
{
    if !(in_range(width) && in_range(height)) {
        return Err(Refusal::Size);
    }
    Ok(())
}

// Tests 1 to 7. The parameters are the calls', each by itself as the definitions name them.
#[tactic(auto, unfolding(format::specs::Refusals::input_refusal, format::specs::Refusals::chain_refusal))]
pub fn read_chain<'a>(
    width: usize,
    height: usize,
    chain: &[u8],
    data: &'a [u8],
) -> Result<ValidChain<'a>, Refusal>
    ensures refusal { returned result ≡ input_refusal width height chain.now «data».now }
    ensures read { IfOk result (Read width height chain.now «data».now) }
{
    check_size(width, height)?;
    if chain.len() % 16 != 0 || 64 < chain.len() {
        return Err(Refusal::ChainLength);
    }
    read_records(width, height, chain, data)
}

// Tests 1 to 8 of the calls that have a picture and its strip.
#[tactic(auto, unfolding(format::specs::Calls::pair_refusal))]
pub fn open<'a>(
    width: usize,
    height: usize,
    chain: &[u8],
    data: &'a [u8],
    picture: &[u8],
    strip: &[u8],
) -> Result<ValidChain<'a>, Refusal>
    ensures refusal { returned result ≡ pair_refusal width height chain.now «data».now picture.now strip.now }
    ensures opened { IfOk result (Opened width height chain.now «data».now picture.now strip.now) }
{
    let read = read_chain(width, height, chain, data)?;
    if picture.len() < 4 * read.pixels() || strip.len() < 4 * read.records() {
        return Err(Refusal::ShortBuffer);
    }
    Ok(read)
}
