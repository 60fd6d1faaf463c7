// The largest width and the largest table, and one more of each, where nothing else is at fault. Of the wide pictures
// the last pixel is shown.
ghost use Rattle.std.specs.Prelude.{◌≤◌, length};

use crate::calls::Stored;
use crate::print::line;
use letchwater::{letchwater_rebuild, letchwater_store, number};
use std::io;

// One row by a predictor with one row of blocks, each of 512 columns.
fn wide(
    rt: &impl Print,
    name: &str,
    width: u32,
    blocks: &[u8],
    image: &mut [u8],
    strip: &mut [u8],
) -> io::Result<()>
    requires { (length blocks.now ≤ 255) × (4 ≤ length image.old) × (4 ≤ length strip.old) }
{
    let length = blocks.len() as u8;
    let chain = [0, 9, 0, 0, 0, 0, 0, 0, length, 0, 0, 0, 0, 0, 0, 0];
    let rebuilt = number(letchwater_rebuild(width, 1, &chain, blocks, image));
    line(rt, name, ", rebuilt", rebuilt, &image[image.len() - 4..])?;
    let stored = number(letchwater_store(width, 1, &chain, blocks, image, strip));
    line(rt, name, ", stored", stored, &strip[strip.len() - 4..])
}

// Row 0 gains L all along: 16384 ones are 0 modulo 256, and the first red is 6 more.
fn widest(rt: &impl Print) -> io::Result<()> {
    let mut image = [1u8; 65536];
    image[0] = 7;
    let name = "16384 wide, last pixel";
    wide(rt, name, 16384, &[0; 128], &mut image, &mut [165; 65536])
}

fn too_wide(rt: &impl Print) -> io::Result<()> {
    let name = "16385 wide, last pixel";
    wide(
        rt,
        name,
        16385,
        &[0; 132],
        &mut [1; 65540],
        &mut [165; 65540],
    )
}

fn largest(rt: &impl Print) -> io::Result<()> {
    let chain = [3, 0, 0, 1, 0, 0, 0, 0, 0, 4, 0, 0, 0, 0, 0, 0];
    let mut entries = [0u8; 1024];
    entries[1020..].copy_from_slice(&[1, 2, 3, 4]);
    let stored = Stored::one_pixel(&chain, &entries);
    stored.both(
        rt,
        "size 256, last entry",
        &mut [0, 255, 0, 255],
        &mut [165; 4],
    )
}

fn too_large(rt: &impl Print) -> io::Result<()> {
    let chain = [3, 0, 1, 1, 0, 0, 0, 0, 4, 4, 0, 0, 0, 0, 0, 0];
    let stored = Stored::one_pixel(&chain, &[0; 1028]);
    stored.both(rt, "size 257", &mut [0, 0, 0, 0], &mut [165; 4])
}

pub fn limits(rt: &impl Print) -> io::Result<()> {
    widest(rt)?;
    too_wide(rt)?;
    largest(rt)?;
    too_large(rt)
}
