// The calls for the Rust host, over numbers and byte slices. Each contract gives the refusal by its number and every
// byte of every lent buffer, on every input. Width, height, chain and data stand apart, as in the papers' calls, whose
// parameters the definitions name. Contracts of the crates below stand here again: a call takes numbers of 32 bits
// where those take `usize`, and is all that a host has to read. `letchwater_c` exports the calls.
#![tactic(auto)]

ghost use Rattle.std.specs.Prelude.{◌≡◌};
ghost use Rattle.format.specs.Pixel.{pixel};
ghost use Rattle.format.specs.Refusals.{returned};
ghost use Rattle.format.specs.Calls.{rebuild_answer, rebuild_image, store_answer, store_strip};
ghost use Rattle.format.specs.Calls.{retouch_answer, retouch_picture, retouch_strip};
ghost use Rattle.format.specs.ColorMap.{color_map_answer, adjust_color_map, unadjust_color_map};
ghost use Rattle.retouch.specs.Changes.{retouched};
ghost use Rattle.format.specs.Report.{report_answer, report_counters};

use color_map::{adjust_color_map, unadjust_color_map};
use format::{Pixel, Refusal};
use item::place::Place;
use rebuild::rebuild;
use report::report::report;
use retouch::changes::Changes;
use retouch::retouch::retouch;
use store::store::store;

// The number that a call returns to the host: 0 where it is not refused. It is no plainer with the next in one: `()`
// has no number by `From`.
pub fn number(outcome: Result<(), Refusal>) -> u32
    ensures { result ≡ returned outcome }
{
    match outcome {
        Ok(()) => 0,
        Err(refusal) => u32::from(refusal),
    }
}

pub fn retouch_number(outcome: Result<Changes, Refusal>) -> u32
    ensures { result ≡ retouched outcome }
{
    match outcome {
        Ok(changes) => u32::from(changes),
        Err(refusal) => u32::from(refusal),
    }
}

// Rebuilds a picture in the buffer whose front holds its strip.
pub fn letchwater_rebuild(
    width: u32,
    height: u32,
    chain: &[u8],
    data: &[u8],
    image: &mut [u8],
) -> Result<(), Refusal>
    ensures value { returned result ≡ rebuild_answer width height chain.now «data».now image.old }
    ensures image_after { image.new ≡ rebuild_image width height chain.now «data».now
        image.old }
{
    rebuild(width as usize, height as usize, chain, data, image)
}

// Stores a picture as a strip.
pub fn letchwater_store(
    width: u32,
    height: u32,
    chain: &[u8],
    data: &[u8],
    picture: &[u8],
    strip: &mut [u8],
) -> Result<(), Refusal>
    ensures value { returned result ≡ store_answer width height chain.now «data».now picture.now
        strip.old }
    ensures strip_after { strip.new ≡ store_strip width height chain.now «data».now
        picture.now strip.old }
{
    store(width as usize, height as usize, chain, data, picture, strip)
}

// Paints column x of row y with the color r, g, b, a, and makes the records of its spots afresh.
pub fn letchwater_retouch(
    width: u32,
    height: u32,
    chain: &[u8],
    data: &[u8],
    picture: &mut [u8],
    strip: &mut [u8],
    x: u32,
    y: u32,
    r: u8,
    g: u8,
    b: u8,
    a: u8,
) -> Result<Changes, Refusal>
    ensures value { retouched result ≡ retouch_answer width height chain.now «data».now
        picture.old strip.old x y (pixel r g b a) }
    ensures picture_after { picture.new ≡ retouch_picture width height chain.now «data».now
        picture.old strip.old x y (pixel r g b a) }
    ensures strip_after { strip.new ≡ retouch_strip width height chain.now «data».now
        picture.old strip.old x y (pixel r g b a) }
{
    let color = Pixel {
        red: r,
        green: g,
        blue: b,
        alpha: a,
    };
    let at = Place {
        x: x as usize,
        y: y as usize,
    };
    retouch(
        width as usize,
        height as usize,
        chain,
        data,
        picture,
        strip,
        at,
        color,
    )
}

// Adds a picture's pixels to the counters, by color: one counter for each color, then one for all others.
pub fn letchwater_report(
    width: u32,
    height: u32,
    picture: &[u8],
    colors: &[u8],
    counters: &mut [u8],
) -> Result<(), Refusal>
    ensures value { returned result ≡ report_answer width height picture.now colors.now
        counters.old }
    ensures counters_after { counters.new ≡ report_counters width height picture.now colors.now
        counters.old }
{
    report(width as usize, height as usize, picture, colors, counters)
}

// Turns a color map as the file has it into finished entries.
pub fn letchwater_adjust_color_map(color_map: &mut [u8]) -> Result<(), Refusal>
    ensures value { returned result ≡ color_map_answer color_map.old }
    ensures color_map_after { color_map.new ≡ adjust_color_map color_map.old }
{
    adjust_color_map(color_map)
}

// Undoes that.
pub fn letchwater_unadjust_color_map(color_map: &mut [u8]) -> Result<(), Refusal>
    ensures value { returned result ≡ color_map_answer color_map.old }
    ensures color_map_after { color_map.new ≡ unadjust_color_map color_map.old }
{
    unadjust_color_map(color_map)
}
