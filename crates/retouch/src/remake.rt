// The records of the spots made afresh, of the picture with its point painted.
ghost use Rattle.std.specs.Prelude.{◌≡◌, IfSome, length, option_map};
ghost use Rattle.item.specs.Source.{picture_of};
ghost use Rattle.retouch.specs.Remade.{RemadeBy};
ghost use Rattle.retouch.specs.Spots.{records_of};

use crate::records::Records;
use format::Pixel;
use item::painted::Painted;
use pixel::pixel::CLEAR;

// The records of the spots, and what each is in the strip to come, at the same index: two arrays since there is no
// heap, and the places are known before the pixels.
#[derive(Clone, Copy)]
pub struct Remade {
    pub spots: Records,
    pub made: [Pixel; 5],
    pub ghost full: { length made ≡ 5 },
}

// None where one cannot be made. By the index of `made`: of what a `zip` of its `iter_mut` wrote no fact is known.
pub fn remake(painted: &Painted, spots: Records) -> Option<Remade>
    ensures made { RemadeBy painted.now.opened (picture_of painted.now) (records_of spots)
        (option_map (λ remade. remade.made) result) }
    ensures spots { IfSome result (λ remade. remade.spots ≡ spots) }
{
    let records = spots.as_slice();
    let mut made = [CLEAR; 5];
    for (k, r) in records.iter().enumerate() {
        // A spot past the strip has no record: nothing of it is looked at, and its bit stays 0.
        if *r < painted.opened.records() {
            made[k] = painted.item(painted.opened.chain.count, *r)?;
        }
    }
    Some(Remade { spots, made })
}
