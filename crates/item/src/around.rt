// The neighbors of a column, and where they stand.
ghost use Rattle.std.specs.Prelude.{◌≡◌, ◌-◌, ◌<◌, ◌≤◌};
ghost use Rattle.item.specs.Neighbors.{neighbor_at, order};

use crate::place::{Place, Stage};

// Which neighbor. What stands at all four is a `predictor::neighbors::Neighbors`.
#[derive(Clone, Copy)]
pub enum Neighbor {
    Left = 0,
    Top = 1,
    TopRight = 2,
    TopLeft = 3,
}

// The number of its bit in a mode's mask.
impl From<Neighbor> for u8 {
    ghost from_gives = { λ n bit. bit ≡ order n };

    fn from(n: Neighbor) -> u8 {
        n as u8
    }
}

// The index of a neighbor of a place. A neighbor outside has an index too, which is that of an item inside.
#[tactic(auto, unfolding(crate::specs::Neighbors::neighbor_at))]
pub fn neighbor_index(n: Neighbor, at: Place, w: usize) -> usize
    requires { (at.x < w) × (w ≤ 16384) × (at.y < 16384) }
    ensures { result ≡ neighbor_at w at.x at.y n }
{
    let Place { x, y } = at;
    let left = x.saturating_sub(1);
    let above = y.saturating_sub(1);
    let place = match n {
        Neighbor::Left => Place { x: left, y },
        Neighbor::Top => Place { x, y: above },
        Neighbor::TopRight if x + 1 == w => Place { x: 0, y },
        Neighbor::TopRight => Place { x: x + 1, y: above },
        Neighbor::TopLeft => Place { x: left, y: above },
    };
    place.index(Stage(w))
}
