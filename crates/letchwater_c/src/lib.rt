// The calls of the library `letchwater` as C functions of a static library, for the Rust host: the same names and
// parameters, each by itself since C has no struct of ours, and a number for each result. Each contract gives it and
// every byte of every lent buffer, on every input, so that the clauses of `letchwater` stand here too.
#![tactic(auto)]

ghost use Rattle.std.specs.Prelude.{◌≡◌};
ghost use Rattle.format.specs.Pixel.{pixel};
ghost use Rattle.format.specs.Calls.{rebuild_answer, rebuild_image, store_answer, store_strip};
ghost use Rattle.format.specs.Calls.{retouch_answer, retouch_picture, retouch_strip};
ghost use Rattle.format.specs.ColorMap.{color_map_answer, adjust_color_map, unadjust_color_map};
ghost use Rattle.format.specs.Report.{report_answer, report_counters};

use letchwater::{number, retouch_number};

// Rebuilds a picture in the buffer whose front holds its strip.
#[unsafe(no_mangle)]
pub extern "C" fn letchwater_rebuild(
    width: u32,
    height: u32,
    chain: &[u8],
    data: &[u8],
    image: &mut [u8],
) -> u32
    ensures value { result ≡ rebuild_answer width height chain.now «data».now image.old }
    ensures image_after { image.new ≡ rebuild_image width height chain.now «data».now
        image.old }
{
    number(letchwater::letchwater_rebuild(width, height, chain, data, image))
}

// Stores a picture as a strip.
#[unsafe(no_mangle)]
pub extern "C" fn letchwater_store(
    width: u32,
    height: u32,
    chain: &[u8],
    data: &[u8],
    picture: &[u8],
    strip: &mut [u8],
) -> u32
    ensures value { result ≡ store_answer width height chain.now «data».now picture.now
        strip.old }
    ensures strip_after { strip.new ≡ store_strip width height chain.now «data».now
        picture.now strip.old }
{
    number(letchwater::letchwater_store(width, height, chain, data, picture, strip))
}

// Paints column x of row y with the color r, g, b, a, and makes the records of its spots afresh.
#[unsafe(no_mangle)]
pub extern "C" fn letchwater_retouch(
    width: u32,
    height: u32,
    chain: &[u8],
    data: &[u8],
    picture: &mut [u8],
    strip: &mut [u8],
    x: u32,
    y: u32,
    r: u8,
    g: u8,
    b: u8,
    a: u8,
) -> u32
    ensures value { result ≡ retouch_answer width height chain.now «data».now
        picture.old strip.old x y (pixel r g b a) }
    ensures picture_after { picture.new ≡ retouch_picture width height chain.now «data».now
        picture.old strip.old x y (pixel r g b a) }
    ensures strip_after { strip.new ≡ retouch_strip width height chain.now «data».now
        picture.old strip.old x y (pixel r g b a) }
{
    retouch_number(letchwater::letchwater_retouch(
        width, height, chain, data, picture, strip, x, y, r, g, b, a,
    ))
}

// Adds a picture's pixels to the counters, by color: one counter for each color, then one for all others.
#[unsafe(no_mangle)]
pub extern "C" fn letchwater_report(
    width: u32,
    height: u32,
    picture: &[u8],
    colors: &[u8],
    counters: &mut [u8],
) -> u32
    ensures value { result ≡ report_answer width height picture.now colors.now
        counters.old }
    ensures counters_after { counters.new ≡ report_counters width height picture.now colors.now
        counters.old }
{
    number(letchwater::letchwater_report(width, height, picture, colors, counters))
}

// Turns a color map as the file has it into finished entries.
#[unsafe(no_mangle)]
pub extern "C" fn letchwater_adjust_color_map(color_map: &mut [u8]) -> u32
    ensures value { result ≡ color_map_answer color_map.old }
    ensures color_map_after { color_map.new ≡ adjust_color_map color_map.old }
{
    number(letchwater::letchwater_adjust_color_map(color_map))
}

// Undoes that.
#[unsafe(no_mangle)]
pub extern "C" fn letchwater_unadjust_color_map(color_map: &mut [u8]) -> u32
    ensures value { result ≡ color_map_answer color_map.old }
    ensures color_map_after { color_map.new ≡ unadjust_color_map color_map.old }
{
    number(letchwater::letchwater_unadjust_color_map(color_map))
}
