// The list of colors.
ghost use Rattle.std.specs.Prelude.{IfOk, ◌≡◌};
ghost use Rattle.format.specs.Picture.{pixels};
ghost use Rattle.format.specs.ColorTable.{index_of};
ghost use Rattle.format.specs.Refusals.{returned};
ghost use Rattle.format.specs.Report.{distinct};
ghost use Rattle.report.specs.Listed.{length_answer, ColorsOf, distinct_answer};

use color_map::refused_length;
use color_table::lookup::Lookup;
use format::Refusal;
use pixel::entries::Entries;
use pixel::word::Word;

// The index of w, or the list's size.
#[tactic(auto, using(crate::proofs::Own::placed))]
pub fn place(list: &Lookup, w: Word) -> usize
    ensures { result ≡ index_of list.now.entries.size (pixels list.now.entries.bytes.now) w }
{
    list.find(w).unwrap_or(list.entries.size)
}

// Whether no color is listed twice: each is found at its own index.
fn distinct(list: &Lookup) -> bool
    ensures { result ≡ distinct list.now.entries.size (pixels list.now.entries.bytes.now) }
{
    (0..list.entries.size).all(|k| place(list, Word::at(list.entries.bytes, k)) == k)
}

// The colors of a list, which may have the lengths of a color map.
pub fn colors_of(colors: &[u8]) -> Result<Entries<'_>, Refusal>
    ensures refusal { returned result ≡ length_answer colors.now }
    ensures colors { IfOk result (ColorsOf colors.now) }
{
    if refused_length(colors.len()) {
        return Err(Refusal::ColorList);
    }
    Ok(Entries {
        bytes: colors,
        size: colors.len() / 4,
    })
}

// The rest of test 23. Two functions, since the look-up in a `Result` would be copied.
pub fn check_distinct(list: &Lookup) -> Result<(), Refusal>
    ensures { returned result ≡ distinct_answer list.now }
{
    if !distinct(list) {
        return Err(Refusal::ColorList);
    }
    Ok(())
}
