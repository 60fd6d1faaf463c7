// Chains of one record: kind, bits, size (2 bytes), offset (4), length (4), four zero bytes.

// One block of 4 by 4.
pub const PREDICTOR: [u8; 16] = [0, 2, 0, 0, 0, 0, 0, 0, 4, 0, 0, 0, 0, 0, 0, 0];

pub const COLOR: [u8; 16] = [1, 2, 0, 0, 0, 0, 0, 0, 4, 0, 0, 0, 0, 0, 0, 0];

pub const SUBTRACT_GREEN: [u8; 16] = [2, 0, 0, 0, 0, 0, 0, 0, 0, 0, 0, 0, 0, 0, 0, 0];

// `length` is 4 times the size.
pub fn color_table(size: u8, length: u8) -> [u8; 16] {
    [3, 0, size, 0, 0, 0, 0, 0, length, 0, 0, 0, 0, 0, 0, 0]
}
