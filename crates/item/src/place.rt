// Columns and rows of a stage.
ghost use Rattle.std.specs.Prelude.{◌≡◌, ℕ, ◌+◌, ◌*◌, ◌/◌, ◌%◌, ◌<◌, ◌≤◌};

use pixel::stride::{Expanded, Packed};

// How many columns a row has, by a type that says what is counted. The impls are alike: document 01 asks for two tuple
// structs, packed and expanded columns, and one type with a marker or a const parameter would take as many names.
pub trait Stride: Copy {
    ghost columns: { Self → ℕ };

    fn columns(self) -> usize
        ensures { result ≡ columns self };
}

impl Stride for Packed {
    ghost columns = { λ row. row.0 };

    fn columns(self) -> usize {
        self.0
    }
}

impl Stride for Expanded {
    ghost columns = { λ row. row.0 };

    fn columns(self) -> usize {
        self.0
    }
}

// Columns of a row of any stage, packed or not: no other stride is in reach.
#[derive(Clone, Copy)]
pub struct Stage(pub usize);

impl Stride for Stage {
    ghost columns = { λ row. row.0 };

    fn columns(self) -> usize {
        self.0
    }
}

// Column x of row y.
#[derive(Clone, Copy)]
pub struct Place {
    pub x: usize,
    pub y: usize,
}

impl Place {
    // Where item q stands.
    pub fn of<S: Stride>(q: usize, row: S) -> Self
        requires { 1 ≤ S.columns row }
        ensures column { result.x ≡ q % S.columns row }
        ensures row { result.y ≡ q / S.columns row }
    {
        let columns = row.columns();
        Place {
            x: q % columns,
            y: q / columns,
        }
    }

    // The item that stands here.
    pub fn index<S: Stride>(self, row: S) -> usize
        requires { self.y * S.columns row + self.x < 18446744073709551616 }
        ensures { result ≡ self.y * S.columns row + self.x }
    {
        self.y * row.columns() + self.x
    }
}
