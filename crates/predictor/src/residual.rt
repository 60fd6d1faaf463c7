// Segments of a row stored: columns of `out` become the row's residuals. What is read is never written, so loops over
// bytes are vectorized in every mode that goes channel by channel. That `out` has room is asked in each: a struct
// around it would have to say what of it stays.
ghost use Rattle.std.specs.Prelude.{◌≡◌, ◌+◌, ◌*◌, ◌<◌, ◌≤◌, length};
ghost use Rattle.format.specs.Picture.{byte_at};
ghost use Rattle.predictor.specs.Bytewise.{Channelwise, byte_residual};

use crate::bytes::byte_around;
use crate::segment::Segment;
use format::Pixel;
use pixel::pixel::{BLACK, pixel_at, put_pixel, select, subtract_pixels};
use pixel::replace::fill;
use pixel::word::Word;

// A segment and its pixels: `rows` holds the row above and then the row.
#[derive(Clone, Copy)]
pub struct Residuals<'a> {
    pub rows: &'a [u8],
    pub segment: Segment,
    pub ghost two: { length rows.now ≡ 8 * segment.width },
}

impl<'a> Residuals<'a> {
    ghost use Rattle.predictor.specs.Segments.{lost_in};

    #[tactic(auto, unfolding(crate::specs::Bytewise::byte_residual))]
    fn store_bytes<const MODE: u8>(&self, out: &mut [u8])
        requires { Channelwise MODE × (length out.old ≡ 4 * self.now.segment.width) }
        ensures { out.new ≡ lost_in MODE self.now out.old }
    {
        let rows = self.rows;
        let stride = 4 * self.segment.width;
        fill(
            out,
            4 * self.segment.from,
            4 * self.segment.to,
            |i: usize| -> u8
                requires { (4 ≤ i) × (i < stride) × (length rows.now ≡ stride + stride) }
                ensures { result ≡ byte_residual MODE stride (byte_at rows.entry.now) i }
            {
                let j = stride + i;
                rows[j].wrapping_sub(byte_around::<MODE>(rows, stride, j))
            },
        );
    }

    // Mode 0, whose channels differ, so that it does not go by bytes. A loop over words is vectorized, over pixels it
    // is not.
    #[tactic(auto, unfolding(format::specs::Predictor::predict))]
    fn store_black(&self, out: &mut [u8])
        requires { length out.old ≡ 4 * self.now.segment.width }
        ensures { out.new ≡ lost_in 0 self.now out.old }
    {
        let rows = self.rows;
        let w = self.segment.width;
        fill(
            out,
            self.segment.from,
            self.segment.to,
            |x: usize| Word::from(subtract_pixels(Pixel::from(Word::at(rows, w + x)), BLACK)),
        );
    }

    // Mode 11, whose channels share a choice. By `fill` this loop takes longer.
    fn store_selected(&self, out: &mut [u8])
        requires { length out.old ≡ 4 * self.now.segment.width }
        ensures { out.new ≡ lost_in 11 self.now out.old }
    {
        let rows = self.rows;
        let w = self.segment.width;
        for x in self.segment.from..self.segment.to {
            let i = w + x;
            let l = pixel_at(rows, i - 1);
            let t = pixel_at(rows, i - w);
            let tl = pixel_at(rows, i - w - 1);
            let residual = subtract_pixels(pixel_at(rows, i), select(l, t, tl));
            put_pixel(out, x, residual);
        }
    }

    // By its mode; modes 14 to 255 predict zero, as 14 does. A `match`, since no value is a const parameter.
    #[tactic(auto, using(crate::proofs::Modes::lost_over_13))]
    pub fn store(&self, out: &mut [u8])
        requires { length out.old ≡ 4 * self.now.segment.width }
        ensures { out.new ≡ lost_in self.now.segment.mode self.now out.old }
    {
        match self.segment.mode {
            0 => self.store_black(out),
            1 => self.store_bytes::<1>(out),
            2 => self.store_bytes::<2>(out),
            3 => self.store_bytes::<3>(out),
            4 => self.store_bytes::<4>(out),
            5 => self.store_bytes::<5>(out),
            6 => self.store_bytes::<6>(out),
            7 => self.store_bytes::<7>(out),
            8 => self.store_bytes::<8>(out),
            9 => self.store_bytes::<9>(out),
            10 => self.store_bytes::<10>(out),
            11 => self.store_selected(out),
            12 => self.store_bytes::<12>(out),
            13 => self.store_bytes::<13>(out),
            _ => self.store_bytes::<14>(out),
        }
    }
}
