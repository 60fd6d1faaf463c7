// A list of retouches, each on what the last one left: every answer.
use crate::calls::Answer;
use crate::case::u32_at;
use crate::stored::Stored;
use letchwater::{letchwater_retouch, retouch_number};

// A picture, its strip, and what it is stored by.
#[derive(Drop)]
pub struct Retouched<'a> {
    pub stored: Stored<'a>,
    pub picture: &'a mut [u8],
    pub strip: &'a mut [u8],
}

impl<'a> Retouched<'a> {
    // One call: column, row, color, answer.
    pub fn retouch(&mut self, call: &[u8; 16]) -> Answer {
        let outcome = letchwater_retouch(
            self.stored.width,
            self.stored.height,
            self.stored.chain,
            self.stored.data,
            self.picture,
            self.strip,
            u32_at(call, 0),
            u32_at(call, 4),
            call[8],
            call[9],
            call[10],
            call[11],
        );
        Answer {
            number: retouch_number(outcome),
            refused: outcome.is_err(),
        }
    }
}
