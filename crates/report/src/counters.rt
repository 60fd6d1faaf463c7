// Counters: numbers of eight bytes each, lowest byte first.
ghost use Rattle.std.specs.Prelude.{IfOk, ◌≡◌, ◌+◌, ◌*◌, ◌/◌, ◌%◌, ◌^◌, ◌<◌, ◌≤◌, length};
ghost use Rattle.format.specs.Refusals.{returned};
ghost use Rattle.format.specs.Report.{counter, counter_byte};
ghost use Rattle.report.specs.Counts.{at, sums_answer, counters_left, Sums};

use crate::count::Counts;
use format::Refusal;
use pixel::replace::fill;

// Beside chain's two, since no trait of the library's has `from_le_bytes`.
#[tactic(auto, unfolding(format::specs::Report::counter))]
fn counter_at(counters: &[u8], k: usize) -> u64
    requires { 8 * k + 8 ≤ length counters.now }
    ensures { result ≡ counter counters.now k }
{
    u64::from_le_bytes(*counters[8 * k..].first_chunk().unwrap())
}

impl Counts {
    // Each count becomes its sum with what its counter holds, where no sum passes 2^64 - 1. In place: an array in a
    // `Result` would be copied.
    #[tactic(auto, using(crate::proofs::Sums::sum_past, crate::proofs::Sums::sums_made))]
    fn sums(&mut self, counters: &[u8]) -> Result<(), Refusal>
        requires { 8 * self.old.size ≤ length counters.now }
        ensures refusal { returned result ≡ sums_answer self.old.size (counter counters.now) self.old.numbers }
        ensures sums { IfOk result (λ _. Sums self.old.size (counter counters.now) self.old.numbers self.new.numbers) }
        ensures size { self.new.size ≡ self.old.size }
    {
        // By the index, since what an `iter_mut` wrote is not covered.
        for k in 0..self.size {
            self.numbers[k] = counter_at(counters, k)
                .checked_add(self.numbers[k])
                .ok_or(Refusal::FullCounter)?;
        }
        Ok(())
    }

    // Test 24, then the counters: all sums are made, in place of the counts, before the first byte is written. That the
    // counters have room is asked here and of `sums`: a struct around the lent ones would have to say what of them
    // stays.
    pub fn add_to(mut self, counters: &mut [u8]) -> Result<(), Refusal>
        requires { 8 * self.size ≤ length counters.old }
        ensures value { returned result ≡ sums_answer self.size (counter counters.old) self.numbers }
        ensures counters_after { counters.new ≡ counters_left self.size self.numbers counters.old (returned result) }
    {
        self.sums(counters)?;
        let sums = &self.numbers;
        fill(
            counters,
            0,
            8 * self.size,
            |i: usize| -> u8
                requires { i / 8 < 257 }
                ensures { result ≡ counter_byte (at sums.entry.now) i }
            { sums[i / 8].to_le_bytes()[i % 8] },
        );
        Ok(())
    }
}
