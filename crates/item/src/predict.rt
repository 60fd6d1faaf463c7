// Which neighbors a mode names.
ghost use Rattle.std.specs.Prelude.{◌≡◌};
ghost use Rattle.item.specs.Neighbors.{names_neighbor, order};

use crate::around::Neighbor;

// A mask for each of modes 0 to 13: bit n is set where the mode names neighbor n of L, T, TR and TL.
const MASKS: [u8; 14] = [0, 1, 2, 4, 8, 7, 9, 3, 10, 6, 15, 11, 11, 11];

// Whether a mode names a neighbor.
#[tactic(auto, using(crate::proofs::Named::mask_names, crate::proofs::Named::names_over_13), unfolding(crate::specs::Neighbors::names_neighbor, format::specs::Made::named_by))]
pub fn names(mode: u8, n: Neighbor) -> bool
    ensures { result ≡ names_neighbor mode (order n) }
{
    match MASKS.get(mode as usize) {
        Some(mask) => (mask >> u8::from(n)) % 2 == 1,
        None => false,
    }
}
