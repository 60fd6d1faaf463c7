// The predictor. Pixels are R, G, B, A; a residual that makes a neighbor is that neighbor less its own prediction.
use crate::calls::Stored;
use crate::chains::PREDICTOR;
use crate::print::bytes_line;
use letchwater::letchwater_rebuild;
use std::io;

// The first pixel is predicted as black, the rest of row 0 as L.
pub fn borders(rt: &impl Print) -> io::Result<()> {
    let data = [0, 7, 0, 255];
    Stored::by_predictor(1, 1, &data).both(rt, "1 by 1", &mut [1, 2, 3, 4], &mut [165; 4])?;
    let mut two = [1, 2, 3, 0, 10, 20, 30, 0];
    Stored::by_predictor(2, 1, &data).both(rt, "2 by 1", &mut two, &mut [165; 8])
}

// The last pixel is off the borders; its top right is the first of its own row. The strip's buffer is longer than
// needed.
fn two_by_two(rt: &impl Print, name: &str, mode: u8, residuals: [u8; 16]) -> io::Result<()> {
    let mut image = residuals;
    Stored::by_predictor(2, 2, &[0, mode, 0, 255]).both(rt, name, &mut image, &mut [165; 18])
}

// Reds 5, 6, 7 as top left, top and left.
const REDS: [u8; 16] = [5, 0, 0, 0, 1, 0, 0, 0, 2, 0, 0, 0, 0, 0, 0, 0];

pub fn inner(rt: &impl Print) -> io::Result<()> {
    two_by_two(rt, "mode 3, last column", 3, REDS)?;
    two_by_two(rt, "mode 14", 14, REDS)?;
    let tie = [0, 0, 0, 0, 0, 10, 0, 0, 10, 0, 0, 0, 0, 0, 0, 0];
    two_by_two(rt, "mode 11, a tie", 11, tie)?;
    // Red has L 200, T 200, TL 100, and green L 10, T 20, TL 100.
    let ends = [100, 100, 0, 0, 100, 176, 0, 0, 100, 166, 0, 0, 0, 0, 0, 0];
    two_by_two(rt, "mode 12, both ends", 12, ends)?;
    let odd = [13, 0, 0, 0, 253, 0, 0, 0, 253, 0, 0, 0, 0, 0, 0, 0];
    two_by_two(rt, "mode 13, toward zero", 13, odd)
}

// Residuals in red alone, of 3 by 2. Pixel 4 has all four neighbors.
fn three_by_two(reds: [u8; 6]) -> [u8; 24] {
    let mut image = [0u8; 24];
    for (pixel, red) in image.chunks_exact_mut(4).zip(&reds) {
        pixel[0] = *red;
    }
    image
}

pub fn twice_rounded(rt: &impl Print) -> io::Result<()> {
    let mut image = three_by_two([0, 1, 1, 1, 0, 0]);
    let name = "mode 10, twice rounded";
    Stored::by_predictor(3, 2, &[0, 10, 0, 255]).both(rt, name, &mut image, &mut [165; 24])
}

// The middle pixel's gain is the next one's loss.
pub fn stored(rt: &impl Print) -> io::Result<()> {
    let picture = [0, 0, 0, 255, 9, 0, 0, 255, 0, 0, 0, 255];
    Stored::by_predictor(3, 1, &[0, 0, 0, 255]).store(rt, "3 by 1", &picture, &mut [165; 12])
}

// The red that a mode predicts from L 50, T 80, TR 200, TL 101.
fn predicted(mode: u8) -> u8 {
    let mut image = three_by_two([101, 235, 120, 205, 0, 0]);
    let _ = letchwater_rebuild(3, 2, &PREDICTOR, &[0, mode, 0, 255], &mut image);
    image[16]
}

// The format's table of modes.
pub fn modes(rt: &impl Print) -> io::Result<()> {
    let mut reds = [0u8; 14];
    for (mode, red) in (0u8..).zip(&mut reds) {
        *red = predicted(mode);
    }
    bytes_line(rt, "modes 0 to 13", &reds)
}
