// Why a replay ends before its list does.
use std::io;
use std::io::ErrorKind;

#[derive(Drop)]
pub enum Failure {
    // A case is not as its header has to be, or the list ends inside it.
    Malformed,
    // Reading the list or printing failed.
    Io(io::Error),
}

impl From<io::Error> for Failure {
    fn from(error: io::Error) -> Failure {
        match error.kind() {
            ErrorKind::UnexpectedEof => Failure::Malformed,
            _ => Failure::Io(error),
        }
    }
}
