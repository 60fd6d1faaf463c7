// Parts of a case, read from the list.
use crate::comparison::Compared;
use crate::failure::Failure;
use std::io::Read;

// A part's bytes are at most these.
pub const MOST: usize = 16384;

// The first n bytes of a buffer.
pub fn front(buffer: &mut [u8; MOST], n: usize) -> Result<&mut [u8], Failure> {
    buffer.get_mut(..n).ok_or(Failure::Malformed)
}

// The next n bytes of the list, in the buffer's front.
pub fn part<'a>(
    list: &mut impl Read,
    buffer: &'a mut [u8; MOST],
    n: usize,
) -> Result<&'a mut [u8], Failure> {
    let part = front(buffer, n)?;
    list.read_exact(part)?;
    Ok(part)
}

// Every byte of the buffer beside the part that follows in the list.
pub fn compare_part(list: &mut impl Read, buffer: &[u8]) -> Result<Compared, Failure> {
    let mut after = [0u8; MOST];
    let after = part(list, &mut after, buffer.len())?;
    Ok(Compared::bytes(buffer, after))
}
