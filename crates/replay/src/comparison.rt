// What comparing a case found.
use crate::failure::Failure;

// Of calls beside the oracle's: whether they gave the same, and whether one refused.
#[derive(Clone, Copy)]
pub struct Compared {
    pub same: bool,
    pub refused: bool,
}

impl Compared {
    // Of what a call left, and what the oracle's did: every byte.
    pub fn bytes(left: &[u8], given: &[u8]) -> Compared {
        Compared {
            same: *left == *given,
            refused: false,
        }
    }

    // Of calls in turn.
    pub fn and(self, next: Compared) -> Compared {
        Compared {
            same: self.same & next.same,
            refused: self.refused | next.refused,
        }
    }
}

// Of calls and parts in turn: none once one is malformed. What follows it in the list is read all the same, unless
// reading fails.
pub fn both(
    so_far: Option<Compared>,
    next: Result<Compared, Failure>,
) -> Result<Option<Compared>, Failure> {
    match next {
        Ok(next) => Ok(so_far.map(|so_far| so_far.and(next))),
        Err(Failure::Malformed) => Ok(None),
        Err(error) => Err(error),
    }
}

// `back` is whether undoing the calls gives what they had; none where they are not undone.
#[derive(Clone, Copy)]
pub struct Comparison {
    pub calls: Compared,
    pub back: Option<bool>,
}

// Of calls that are not undone.
impl From<Compared> for Comparison {
    fn from(calls: Compared) -> Comparison {
        Comparison { calls, back: None }
    }
}
