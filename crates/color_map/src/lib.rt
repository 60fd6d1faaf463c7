// The color map as the file stores it, and as the color table takes it.
#![tactic(auto)]

ghost use Rattle.std.specs.Prelude.{◌≡◌, ◌≤◌, Ok, Err, length, if◌then◌else◌};
ghost use Rattle.format.specs.declared.Refusal.TheVariants.{MapLength};
ghost use Rattle.format.specs.Picture.{byte_at, written_bytes};
ghost use Rattle.format.specs.Refusals.{returned};
ghost use Rattle.format.specs.ColorMap.{adjusted, unadjusted, refused as length_refused};
ghost use Rattle.format.specs.ColorMap.{color_map_answer, adjust_color_map, unadjust_color_map};

use format::Refusal;
use pixel::replace::{replace, replace_back};

// Adjusts the color map, which is stored as differences: front to back, so that each byte gains an adjusted one. This
// and undoing it are two functions, since one would take the order and the gain or loss as parameters.
fn adjust(color_map: &mut [u8])
    requires { 4 ≤ length color_map.old }
    ensures { color_map.new ≡ written_bytes (length color_map.old)
        (adjusted (byte_at color_map.old)) color_map.old }
{
    let n = color_map.len();
    replace(
        color_map,
        4,
        n,
        |map: &[u8], i: usize| map[i].wrapping_add(map[i - 4]),
    );
}

// Undoes that: back to front, so that each byte loses one that is adjusted still.
fn unadjust(color_map: &mut [u8])
    requires { 4 ≤ length color_map.old }
    ensures { color_map.new ≡ written_bytes (length color_map.old)
        (unadjusted (byte_at color_map.old)) color_map.old }
{
    let n = color_map.len();
    replace_back(
        color_map,
        4,
        n,
        |map: &[u8], i: usize| map[i].wrapping_sub(map[i - 4]),
    );
}

// Refused is a length of 0, over 1024 or not a multiple of 4.
pub fn refused_length(length: usize) -> bool
    ensures { result ≡ length_refused length }
{
    !(1..=1024).contains(&length) || length % 4 != 0
}

fn checked_length(color_map: &[u8]) -> Result<(), Refusal>
    ensures { result ≡ (if length_refused (length color_map.now) then Err MapLength else Ok tt) }
{
    if refused_length(color_map.len()) {
        return Err(Refusal::MapLength);
    }
    Ok(())
}

// A refused map stays as it was. The two calls are no plainer as one: three lines each, over one test.
#[tactic(auto, unfolding(format::specs::ColorMap::color_map_answer, format::specs::ColorMap::adjust_color_map))]
pub fn adjust_color_map(color_map: &mut [u8]) -> Result<(), Refusal>
    ensures value { returned result ≡ color_map_answer color_map.old }
    ensures color_map_after { color_map.new ≡ adjust_color_map color_map.old }
{
    checked_length(color_map)?;
    adjust(color_map);
    Ok(())
}

#[tactic(auto, unfolding(format::specs::ColorMap::color_map_answer, format::specs::ColorMap::unadjust_color_map))]
pub fn unadjust_color_map(color_map: &mut [u8]) -> Result<(), Refusal>
    ensures value { returned result ≡ color_map_answer color_map.old }
    ensures color_map_after { color_map.new ≡ unadjust_color_map color_map.old }
{
    checked_length(color_map)?;
    unadjust(color_map);
    Ok(())
}
