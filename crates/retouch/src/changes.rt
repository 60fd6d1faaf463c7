// Which of a point's spots had a record changed, and the number that a retouch answers with.
ghost use Rattle.std.specs.Prelude.{◌<◌};

// Bit k is set where the record of spot k changed. A record that several spots have is the first one's.
#[derive(Clone, Copy)]
pub struct Changes {
    pub mask: u32,
    ghost below: { mask < 32 },
}

impl From<Changes> for u32 {
    ghost use Rattle.std.specs.Prelude.{◌≡◌};
    ghost use Rattle.std.specs.Int.Count.{ones};
    ghost use Rattle.format.specs.Retouch.{answer};

    ghost from_gives = { λ changes n. n ≡ answer (ones changes.mask) changes.mask };

    fn from(changes: Changes) -> u32 {
        256 + 32 * changes.mask.count_ones() + changes.mask
    }
}
