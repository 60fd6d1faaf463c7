// Calls of `letchwater` beside the oracle's answers.
use crate::case::u32_at;
use crate::comparison::{Compared, both};
use crate::failure::Failure;
use format::Refusal;
use letchwater::number;
use std::io::Read;

// What a call answered, and whether it refused: of a retouch the number alone does not say it by being 0.
#[derive(Clone, Copy)]
pub struct Answer {
    pub number: u32,
    pub refused: bool,
}

impl From<Result<(), Refusal>> for Answer {
    fn from(outcome: Result<(), Refusal>) -> Answer {
        Answer {
            number: number(outcome),
            refused: outcome.is_err(),
        }
    }
}

impl Answer {
    pub fn compare(self, given: u32) -> Compared {
        Compared {
            same: self.number == given,
            refused: self.refused,
        }
    }
}

// Calls in turn, each of which follows in the list in 16 bytes: what `call` takes, then the oracle's answer. None where
// one is malformed.
pub fn replay_calls<R: Read, F: FnMut(&mut R, &[u8; 16]) -> Result<Answer, Failure>>(
    list: &mut R,
    calls: u8,
    mut call: F,
) -> Result<Option<Compared>, Failure>
    requires { F.IsAlwaysCallable call }
{
    let mut so_far = Some(Compared {
        same: true,
        refused: false,
    });
    for _ in 0..calls {
        let mut bytes = [0u8; 16];
        let answer = match list.read_exact(&mut bytes) {
            Ok(()) => call(list, &bytes),
            Err(error) => Err(error.into()),
        };
        so_far = both(
            so_far,
            answer.map(|answer: Answer| answer.compare(u32_at(&bytes, 12))),
        )?;
    }
    Ok(so_far)
}
