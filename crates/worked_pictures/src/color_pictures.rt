// The color transform, subtract green and the color map.
use crate::calls::Stored;
use crate::chains::{COLOR, SUBTRACT_GREEN};
use crate::print::{bytes_line, line};
use letchwater::{
    letchwater_adjust_color_map, letchwater_rebuild, letchwater_unadjust_color_map, number,
};
use std::io;

// The delta of t and c, as the red that green c gives by the factor t.
fn delta(t: u8, c: u8) -> u8 {
    let mut image = [0, c, 0, 0];
    let _ = letchwater_rebuild(1, 1, &COLOR, &[0, 0, t, 255], &mut image);
    image[0]
}

pub fn deltas(rt: &impl Print) -> io::Result<()> {
    let deltas = [
        delta(255, 1),
        delta(127, 127),
        delta(128, 127),
        delta(128, 128),
    ];
    bytes_line(rt, "delta", &deltas)
}

pub fn pixels(rt: &impl Print) -> io::Result<()> {
    let color = Stored::one_pixel(&COLOR, &[32, 0, 32, 0]);
    color.both(rt, "color", &mut [10, 32, 5, 9], &mut [165; 4])?;
    let green = Stored::one_pixel(&SUBTRACT_GREEN, b"");
    green.both(rt, "subtract green", &mut [250, 10, 255, 7], &mut [165; 4])
}

pub fn color_map(rt: &impl Print) -> io::Result<()> {
    let mut map = [250u8, 0, 0, 255, 10, 1, 0, 0];
    let adjusted = number(letchwater_adjust_color_map(&mut map));
    line(rt, "color map", ", adjusted", adjusted, &map)?;
    let undone = number(letchwater_unadjust_color_map(&mut map));
    line(rt, "color map", ", undone", undone, &map)
}
