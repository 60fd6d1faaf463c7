// A list of reports, each on the counters that the last one left: every answer.
use crate::calls::Answer;
use crate::case::u32_at;
use crate::failure::Failure;
use crate::parts::{MOST, part};
use letchwater::letchwater_report;
use std::io::Read;

// One call: width, height, length of the picture's buffer and answer, and in the list that buffer.
pub fn report(
    list: &mut impl Read,
    call: &[u8; 16],
    colors: &[u8],
    counters: &mut [u8],
) -> Result<Answer, Failure> {
    let mut picture = [0u8; MOST];
    let picture = part(list, &mut picture, u32_at(call, 8) as usize)?;
    let outcome = letchwater_report(u32_at(call, 0), u32_at(call, 4), picture, colors, counters);
    Ok(outcome.into())
}
