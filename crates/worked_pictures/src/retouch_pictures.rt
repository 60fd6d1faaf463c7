// Retouches: each call of a list on what the last one left.
use crate::calls::{Paint, Stored};
use crate::chains::color_table;
use std::io;

// Opaque black.
const BLACK: [u8; 12] = [0, 0, 0, 255, 0, 0, 0, 255, 0, 0, 0, 255];

const RED: [u8; 4] = [9, 0, 0, 255];

// The middle, the same again, and a point outside.
pub fn middle(rt: &impl Print) -> io::Result<()> {
    let mut picture = BLACK;
    let mut strip = [0u8; 12];
    let stored = Stored::by_predictor(3, 1, &[0, 0, 0, 255]);
    let middle = Paint {
        x: 1,
        y: 0,
        color: RED,
    };
    let outside = Paint {
        x: 3,
        y: 0,
        color: RED,
    };
    stored.retouch(rt, "3 by 1, the middle", middle, &mut picture, &mut strip)?;
    stored.retouch(rt, "the same again", middle, &mut picture, &mut strip)?;
    stored.retouch(rt, "column 3", outside, &mut picture, &mut strip)
}

// 1 by 3: p + w - 1 is p, and p + w is p + 1, so that two spots share a record twice.
pub fn shared(rt: &impl Print) -> io::Result<()> {
    let mut picture = BLACK;
    let mut strip = [0u8; 12];
    let stored = Stored::by_predictor(1, 3, &[0, 0, 0, 255]);
    let top = Paint {
        x: 0,
        y: 0,
        color: RED,
    };
    stored.retouch(rt, "1 by 3, the top", top, &mut picture, &mut strip)
}

fn black_eight() -> [u8; 32] {
    let mut picture = [0u8; 32];
    for pixel in picture.chunks_exact_mut(4) {
        pixel[3] = 255;
    }
    picture
}

// 4 by 2 in mode 10: all five spots change.
pub fn five(rt: &impl Print) -> io::Result<()> {
    let mut picture = black_eight();
    let mut strip = [0u8; 32];
    let stored = Stored::by_predictor(4, 2, &[0, 10, 0, 255]);
    let point = Paint {
        x: 2,
        y: 0,
        color: [128, 0, 0, 255],
    };
    stored.retouch(rt, "4 by 2, mode 10", point, &mut picture, &mut strip)
}

fn of_two(
    rt: &impl Print,
    name: &str,
    picture: &mut [u8],
    strip: &mut [u8],
    x: u32,
    color: [u8; 4],
) -> io::Result<()> {
    let stored = Stored {
        width: 3,
        height: 1,
        chain: &color_table(2, 8),
        data: &[1, 2, 3, 4, 5, 6, 7, 8],
    };
    stored.retouch(rt, name, Paint { x, y: 0, color }, picture, strip)
}

// A color that the table lacks, and one that it has; in the last column it goes to the unused bits too.
pub fn entries(rt: &impl Print) -> io::Result<()> {
    let mut picture = [1, 2, 3, 4, 1, 2, 3, 4, 1, 2, 3, 4];
    let mut strip = [0, 0, 0, 255, 165, 165];
    let lacks = [5, 6, 7, 9];
    let has = [5, 6, 7, 8];
    of_two(
        rt,
        "table of 2, no entry",
        &mut picture,
        &mut strip,
        1,
        lacks,
    )?;
    of_two(rt, "table of 2, an entry", &mut picture, &mut strip, 1, has)?;
    let name = "table of 2, the last column";
    of_two(rt, name, &mut picture, &mut strip, 2, has)
}
