// The report of a picture.
ghost use Rattle.std.specs.Prelude.{◌≡◌};
ghost use Rattle.format.specs.Refusals.{returned};
ghost use Rattle.format.specs.Report.{report_answer, report_counters};

use crate::colors::{check_distinct, colors_of};
use crate::count::Counting;
use chain::check_size;
use color_table::lookup::Lookup;
use format::Refusal;

// Tests 1, 23, 8 and 24, then the counters.
#[tactic(auto, unfolding(format::specs::Report::report_answer, format::specs::Report::report_counters, format::specs::Report::color_list))]
pub fn report(
    width: usize,
    height: usize,
    picture: &[u8],
    colors: &[u8],
    counters: &mut [u8],
) -> Result<(), Refusal>
    ensures value { returned result ≡ report_answer width height picture.now colors.now
        counters.old }
    ensures counters_after { counters.new ≡ report_counters width height picture.now colors.now
        counters.old }
{
    check_size(width, height)?;
    let list = Lookup::new(&colors_of(colors)?);
    check_distinct(&list)?;
    let count = height * width;
    if counters.len() < 8 * (list.entries.size + 1) || picture.len() < 4 * count {
        return Err(Refusal::ShortBuffer);
    }
    let counting = Counting {
        list: &list,
        picture: &picture[..4 * count],
    };
    counting.counts().add_to(counters)
}
