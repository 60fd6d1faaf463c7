// The color table, and chains of none and of two records.
use crate::calls::Stored;
use crate::chains::color_table;
use std::io;

// 5 by 1 of three entries, packed into two pixels of four indices each: 228 is 0, 1, 2, 3 from the lowest bits up, and
// 254 starts with 2.
fn five(rt: &impl Print, name: &str, entries: &[u8; 12]) -> io::Result<()> {
    let mut image = [165u8; 20];
    image[0] = 0;
    image[1] = 228;
    image[5] = 254;
    let stored = Stored {
        width: 5,
        height: 1,
        chain: &color_table(3, 12),
        data: entries,
    };
    stored.both(rt, name, &mut image, &mut [165; 8])
}

// Index 3 is past the size. The clear pixel that it gives is stored where an entry is clear.
pub fn past_size(rt: &impl Print) -> io::Result<()> {
    five(rt, "color table", &[1, 2, 3, 4, 5, 6, 7, 8, 9, 10, 11, 12])?;
    five(
        rt,
        "with a clear entry",
        &[1, 2, 3, 4, 0, 0, 0, 0, 9, 10, 11, 12],
    )
}

// Entry i is i, 255, 255, 255.
fn entries() -> [u8; 68] {
    let mut table = [255u8; 68];
    for (i, entry) in (0u8..).zip(table.chunks_exact_mut(4)) {
        entry[0] = i;
    }
    table
}

// 3 by 1 by a table whose entries tell their index.
fn three(rt: &impl Print, name: &str, chain: [u8; 16], packed: [u8; 12]) -> io::Result<()> {
    let mut image = packed;
    let stored = Stored {
        width: 3,
        height: 1,
        chain: &chain,
        data: &entries(),
    };
    stored.both(rt, name, &mut image, &mut [165; 12])
}

// How many indices the format bundles into a pixel of 3 by 1, by the table's size. Unused bits are zero, as in strips
// stored earlier; storing puts the last index there.
pub fn bundles(rt: &impl Print) -> io::Result<()> {
    let eight = [0, 5, 0, 255, 0, 0, 0, 0, 0, 0, 0, 0];
    three(rt, "bundles of 8", color_table(2, 8), eight)?;
    let four = [0, 27, 0, 255, 0, 0, 0, 0, 0, 0, 0, 0];
    three(rt, "bundles of 4", color_table(4, 16), four)?;
    let two = [0, 47, 0, 255, 0, 3, 0, 255, 0, 0, 0, 0];
    three(rt, "bundles of 2", color_table(16, 64), two)?;
    let one = [0, 16, 0, 255, 0, 17, 0, 255, 0, 3, 0, 255];
    three(rt, "no bundles", color_table(17, 68), one)
}

pub fn empty_chain(rt: &impl Print) -> io::Result<()> {
    Stored::one_pixel(b"", b"").both(rt, "empty chain", &mut [1, 2, 3, 4], &mut [165; 5])
}

// 5 by 1 by a table, then a predictor over the two packed pixels, whose block follows the entries in the data.
pub fn table_then_predictor(rt: &impl Print) -> io::Result<()> {
    let stored = Stored {
        width: 5,
        height: 1,
        chain: &[
            3, 0, 3, 0, 0, 0, 0, 0, 12, 0, 0, 0, 0, 0, 0, 0, 0, 2, 0, 0, 12, 0, 0, 0, 4, 0, 0, 0,
            0, 0, 0, 0,
        ],
        data: &[1, 2, 3, 4, 0, 0, 0, 0, 9, 10, 11, 12, 0, 0, 0, 255],
    };
    let mut image = [0u8; 20];
    image[1] = 228;
    image[5] = 26;
    stored.both(rt, "table, then predictor", &mut image, &mut [165; 8])
}
