// A picture's size, and the chain and data that it is stored by. `worked_pictures` has such a struct too: a program is
// used by no other, and `letchwater` below both has the calls alone, as the papers list them.
use format::Refusal;
use letchwater::{letchwater_rebuild, letchwater_store};

#[derive(Clone, Copy)]
pub struct Stored<'a> {
    pub width: u32,
    pub height: u32,
    pub chain: &'a [u8],
    pub data: &'a [u8],
}

impl<'a> Stored<'a> {
    pub fn rebuild(&self, image: &mut [u8]) -> Result<(), Refusal> {
        letchwater_rebuild(self.width, self.height, self.chain, self.data, image)
    }

    pub fn store(&self, picture: &[u8], strip: &mut [u8]) -> Result<(), Refusal> {
        letchwater_store(
            self.width,
            self.height,
            self.chain,
            self.data,
            picture,
            strip,
        )
    }
}
