// The records of a point's spots: the point followed through the chain. A predictor has five spots for it, and a
// chain at most one predictor.
ghost use Rattle.std.specs.Prelude.{◌≡◌, [], ◌∷◌, ◌<◌, ◌≤◌};
ghost use Rattle.format.specs.Indices.{union};
ghost use Rattle.format.specs.Retouch.{five_spots, packed_over, spots_of};
ghost use Rattle.chain.specs.Valid.{pixels_in};
ghost use Rattle.retouch.specs.Spots.{records_of, first_of, touched_by};

use crate::records::Records;
use chain::record::Record;
use format::TransformType;
use item::painted::Painted;
use item::place::Place;
use pixel::stride::{Expanded, packed_width, per_pixel};

// The packed pixel that holds item q of a table's stage.
#[tactic(auto, using(crate::proofs::Follow::packed_before))]
fn packed_over(record: &Record, q: usize) -> usize
    ensures { (result ≡ packed_over «record».now.step.width «record».now.step.size q) × (result ≤ q) }
{
    let row = Expanded(record.step.width);
    let size = record.step.size;
    let at = Place::of(q, row);
    let packed = Place {
        x: at.x / per_pixel(size),
        y: at.y,
    };
    packed.index(packed_width(row, size))
}

impl Records {
    // The spots of the first, in a predictor's stage.
    fn spread(self, record: &Record) -> Records
        ensures { records_of result ≡ five_spots «record».now.step.width (first_of self) }
    {
        let w = record.step.width;
        let p = self.places[0];
        Records {
            places: [p, p + 1, p + w - 1, p + w, p + w + 1],
            count: 5,
        }
    }

    // The packed pixels that hold them, of a table's stage.
    fn packed(self, record: &Record) -> Records
        ensures { records_of result
            ≡ union (λ q. packed_over «record».now.step.width «record».now.step.size q ∷ []) (records_of self) }
    {
        Records {
            places: self.places.map(|q| packed_over(record, q)),
            count: self.count,
        }
    }

    // Those after one record of the chain more.
    #[tactic(auto, using(crate::proofs::Follow::followed_predictor, crate::proofs::Follow::followed_table))]
    fn followed(self, record: &Record) -> Records
        requires { «record».now.step.kind ≡ 0 → self.count ≡ 1 }
        ensures { records_of result ≡ union (spots_of «record».now.step) (records_of self) }
    {
        match record.transform_type() {
            TransformType::Predictor => self.spread(record),
            TransformType::Color | TransformType::SubtractGreen => self,
            TransformType::ColorTable => self.packed(record),
        }
    }
}

// The records of the point's spots.
pub fn spots_of(painted: &Painted) -> Records
    requires { painted.now.point.index < pixels_in painted.now.opened.chain }
    ensures { records_of result ≡ touched_by painted.now.opened painted.now.point }
{
    let point = Records {
        places: [painted.point.index, 0, 0, 0, 0],
        count: 1,
    };
    let opened = &painted.opened;
    (0..opened.chain.count).fold(point, |spots, k| spots.followed(&opened.record(k)))
}
