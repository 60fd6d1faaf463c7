// Reports: each call of a list on the counters that the last one left.
use crate::print::line;
use letchwater::{letchwater_report, number};
use std::io;

fn report(
    rt: &impl Print,
    name: &str,
    (width, height): (u32, u32),
    picture: &[u8],
    colors: &[u8],
    counters: &mut [u8],
) -> io::Result<()> {
    let answer = number(letchwater_report(width, height, picture, colors, counters));
    line(rt, name, ", reported", answer, counters)
}

// Two colors, all others, and a byte beyond: a map is counted, one is too short, and one more is counted.
pub fn shipment(rt: &impl Print) -> io::Result<()> {
    let colors = [1, 0, 0, 255, 2, 0, 0, 255];
    let mut counters = [0u8; 25];
    counters[8] = 255;
    counters[24] = 165;
    let first = [1, 0, 0, 255, 2, 0, 0, 255, 1, 0, 0, 255];
    let second = [2, 0, 0, 255, 1, 0, 0, 254];
    report(rt, "3 by 1", (3, 1), &first, &colors, &mut counters)?;
    report(rt, "too short", (3, 1), &second, &colors, &mut counters)?;
    report(rt, "1 by 2", (1, 2), &second, &colors, &mut counters)
}

// A run of one color over several groups of sixteen, a color listed twice, and a list of no color.
pub fn lists(rt: &impl Print) -> io::Result<()> {
    let size = (40, 1);
    let picture = [7u8; 160];
    let mut counters = [0u8; 24];
    let two = [9, 9, 9, 9, 7, 7, 7, 7];
    report(rt, "40 by 1", size, &picture, &two, &mut counters)?;
    let twice = [7, 7, 7, 7, 7, 7, 7, 7];
    report(rt, "listed twice", size, &picture, &twice, &mut counters)?;
    report(rt, "no colors", size, &picture, &[], &mut counters)
}

// A counter reaches 2^64 - 1, and does not pass it.
pub fn full(rt: &impl Print) -> io::Result<()> {
    let pixel = [7u8; 4];
    let mut counters = [255u8; 16];
    counters[0] = 254;
    report(rt, "nearly full", (1, 1), &pixel, &pixel, &mut counters)?;
    report(rt, "full", (1, 1), &pixel, &pixel, &mut counters)
}
