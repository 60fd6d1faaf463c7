// The lengths that a case's header asks for, by the tables of document 01: no code of ours is asked.

// The bytes of a picture; none where a side is out of bounds.
pub fn picture_len(width: u32, height: u32) -> Option<usize> {
    if !(1..=16384).contains(&width) || !(1..=16384).contains(&height) {
        return None;
    }
    Some(4 * (height as usize * width as usize))
}

// The columns of packed pixels.
fn packed_columns(width: u32, size: usize) -> u32 {
    match size {
        0..=2 => width.div_ceil(8),
        3..=4 => width.div_ceil(4),
        5..=16 => width.div_ceil(2),
        _ => width,
    }
}

// The bytes of a picture's packed pixels.
pub fn packed_len(width: u32, height: u32, size: usize) -> Option<usize> {
    picture_len(packed_columns(width, size), height)
}
