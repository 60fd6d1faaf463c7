// Lines of output: what a call was given, the number that it answered, and the bytes of the buffer that it wrote. `rt`
// and `name` are two parameters: each line has a name of its own, so that every call would have to make a struct first.
use std::io;

pub fn bytes_line(rt: &impl Print, name: &str, bytes: &[u8]) -> io::Result<()> {
    print!(rt; "{name}:")?;
    for byte in bytes {
        print!(rt; " {byte}")?;
    }
    println!(rt)
}

pub fn line(rt: &impl Print, name: &str, call: &str, answer: u32, bytes: &[u8]) -> io::Result<()> {
    print!(rt; "{name}{call} {answer}")?;
    bytes_line(rt, "", bytes)
}
