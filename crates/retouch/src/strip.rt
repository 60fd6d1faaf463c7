// The records of the spots, written to the strip.
ghost use Rattle.std.specs.Prelude.{◌/◌, length};
ghost use Rattle.retouch.specs.Remade.{WritesMade};
ghost use Rattle.retouch.specs.Spots.{records_of};

use crate::remake::Remade;
use format::Pixel;
use pixel::pixel::put_pixel;

impl Remade {
    // `strip` is the strip's records alone; a spot past them has none.
    pub fn write(&self, strip: &mut [u8])
        ensures { WritesMade (length strip.old / 4) (records_of self.now.spots) self.now.made strip.old strip.new }
    {
        for (r, v) in self.spots.as_slice().iter().zip(&self.made) {
            if *r < strip.len() / 4 {
                put_pixel(strip, *r, *v);
            }
        }
    }
}
