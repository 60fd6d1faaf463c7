// What a retouch answers, and the records that it would write. No byte is written here.
ghost use Rattle.std.specs.Prelude.{◌≡◌, ◌<◌, MatchResult};
ghost use Rattle.format.specs.Refusals.{number};
ghost use Rattle.chain.specs.Valid.{HoldsStrip, pixels_in};
ghost use Rattle.retouch.specs.Decided.{Decided, answer_by};

use crate::changes::Changes;
use crate::remake::{Remade, remake};
use crate::spots::spots_of;
use format::Refusal;
use item::painted::Painted;

#[derive(Clone, Copy)]
pub struct Decision {
    pub changes: Changes,
    pub remade: Remade,
}

// Test 22, then the changes. What it asks is no ghost field of `Painted`, which has no strip, and which makes an item
// wherever the point is.
pub fn decide(painted: &Painted, strip: &[u8]) -> Result<Decision, Refusal>
    requires strip { HoldsStrip painted.now.opened.chain strip.now }
    requires inside { painted.now.point.index < pixels_in painted.now.opened.chain }
    ensures { MatchResult result
        (Decided painted.now.opened painted.now.picture.now strip.now painted.now.point)
        (λ refusal. number refusal ≡ answer_by painted.now.opened painted.now.picture.now
        strip.now painted.now.point) }
{
    let remade = remake(painted, spots_of(painted)).ok_or(Refusal::NoRecord)?;
    let changes = remade.changes(&strip[..4 * painted.opened.records()]);
    Ok(Decision { changes, remade })
}
