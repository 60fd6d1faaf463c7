// The records of a strip that a point's spots belong to.
ghost use Rattle.std.specs.Prelude.{◌≡◌, ◌≤◌, length, get_or, take};

// The first `count` of `places`: one, or five in the order of the spots. With no heap they lie in an array. The first
// place is bounded, so that its spots can be counted.
#[derive(Clone, Copy)]
pub struct Records {
    pub places: [usize; 5],
    pub count: usize,
    pub ghost full: { length places ≡ 5 },
    pub ghost most: { count ≤ 5 },
    pub ghost low: { get_or places 0 0 ≤ 268435456 },
}

impl Records {
    pub fn as_slice(&self) -> &[usize]
        ensures { (result.now ≡ take self.now.count self.now.places) × (length result.now ≤ 5) }
    {
        &self.places[..self.count]
    }
}
