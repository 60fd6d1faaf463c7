// The mask of the records that change: bit k is that of spot k.
ghost use Rattle.std.specs.Prelude.{◌≡◌, ◌/◌, length};
ghost use Rattle.format.specs.Picture.{pixels};
ghost use Rattle.retouch.specs.Remade.{MasksMade, marked};
ghost use Rattle.retouch.specs.Spots.{records_of};

use crate::changes::Changes;
use crate::remake::Remade;
use format::Pixel;
use pixel::word::Word;

// Whether the strip has a record r, which is not v and is no earlier spot's.
fn mark(strip: &[u8], earlier: &[usize], r: usize, v: Pixel) -> bool
    ensures { result ≡ marked (length strip.now / 4) (pixels strip.now) earlier.now r v }
{
    r < strip.len() / 4 && Word::at(strip, r) != Word::from(v) && !earlier.contains(&r)
}

impl Remade {
    // `strip` is the strip's records alone.
    pub fn changes(&self, strip: &[u8]) -> Changes
        ensures { MasksMade (length strip.now / 4) (records_of self.now.spots) self.now.made (pixels strip.now)
            result.mask }
    {
        let records = self.spots.as_slice();
        let mut mask = 0;
        for (k, (r, v)) in records.iter().zip(&self.made).enumerate() {
            mask += u32::from(mark(strip, &records[..k], *r, *v)) << k;
        }
        Changes { mask }
    }
}
