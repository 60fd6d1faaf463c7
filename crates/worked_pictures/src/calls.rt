// Pictures through the calls of `letchwater`, a line for each call.
use crate::chains::PREDICTOR;
use crate::print::{bytes_line, line};
use letchwater::{
    letchwater_rebuild, letchwater_retouch, letchwater_store, number, retouch_number,
};
use std::io;

// A picture's size, and the chain and data that it is stored by. `replay` has such a struct too: a program is used by
// no other, and `letchwater` below both has the calls alone, as the papers list them.
#[derive(Clone, Copy)]
pub struct Stored<'a> {
    pub width: u32,
    pub height: u32,
    pub chain: &'a [u8],
    pub data: &'a [u8],
}

// A pixel that is painted.
#[derive(Clone, Copy)]
pub struct Paint {
    pub x: u32,
    pub y: u32,
    pub color: [u8; 4],
}

impl<'a> Stored<'a> {
    pub fn one_pixel(chain: &'a [u8], data: &'a [u8]) -> Self {
        Stored {
            width: 1,
            height: 1,
            chain,
            data,
        }
    }

    pub fn by_predictor(width: u32, height: u32, data: &'a [u8]) -> Self {
        Stored {
            width,
            height,
            chain: &PREDICTOR,
            data,
        }
    }

    pub fn rebuild(&self, rt: &impl Print, name: &str, image: &mut [u8]) -> io::Result<()> {
        let answer = number(letchwater_rebuild(
            self.width,
            self.height,
            self.chain,
            self.data,
            image,
        ));
        line(rt, name, ", rebuilt", answer, image)
    }

    pub fn store(
        &self,
        rt: &impl Print,
        name: &str,
        picture: &[u8],
        strip: &mut [u8],
    ) -> io::Result<()> {
        let answer = number(letchwater_store(
            self.width,
            self.height,
            self.chain,
            self.data,
            picture,
            strip,
        ));
        line(rt, name, ", stored", answer, strip)
    }

    // Rebuilt in `image`, then stored back into `strip`.
    pub fn both(
        &self,
        rt: &impl Print,
        name: &str,
        image: &mut [u8],
        strip: &mut [u8],
    ) -> io::Result<()> {
        self.rebuild(rt, name, image)?;
        self.store(rt, name, image, strip)
    }

    // The picture after it, then the strip.
    pub fn retouch(
        &self,
        rt: &impl Print,
        name: &str,
        paint: Paint,
        picture: &mut [u8],
        strip: &mut [u8],
    ) -> io::Result<()> {
        let [r, g, b, a] = paint.color;
        let answer = retouch_number(letchwater_retouch(
            self.width,
            self.height,
            self.chain,
            self.data,
            picture,
            strip,
            paint.x,
            paint.y,
            r,
            g,
            b,
            a,
        ));
        line(rt, name, ", retouched", answer, picture)?;
        bytes_line(rt, "its strip", strip)
    }
}
