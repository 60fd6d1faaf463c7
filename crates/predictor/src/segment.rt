// Segments of a row, and how they are rebuilt in place: a loop for each mode, so that the mode is not tested for each
// pixel. `rows` holds the row above and then the row. It is a parameter, and each function asks that it is two rows: in
// a struct that is passed on by value it is not covered, and behind a reference to one it is not known that bytes are
// below 256, which modes over 13 need.
ghost use Rattle.std.specs.Prelude.{◌≡◌, ◌+◌, ◌-◌, ◌*◌, ◌^◌, ◌<◌, ◌≤◌, length};
ghost use Rattle.format.specs.Picture.{byte_at, pixels, ceiling};
ghost use Rattle.predictor.specs.Row.{around, gains, segment_gained, segment_start, OneMode};
ghost use Rattle.predictor.specs.Bytewise.{Channelwise, byte_gains};

use crate::bytes::byte_around;
use crate::mode::predict_pixel;
use crate::neighbors::Neighbors;
use crate::select::add_selected;
use format::Pixel;
use pixel::block::BlockRow;
use pixel::pixel::{BLACK, add_pixels, pixel_at};
use pixel::replace::{replace, replace_left, update};

// Columns `from` up to `to` of a row of `width` pixels, off column 0 and all of one mode. The mode is a number, since
// loops have it as a const parameter, and 242 of its 256 values have no name.
#[derive(Clone, Copy)]
pub struct Segment {
    pub mode: u8,
    pub width: usize,
    pub from: usize,
    pub to: usize,
    pub ghost inside: { (1 ≤ from) × (from ≤ to) × (to ≤ width) },
}

impl Segment {
    // Those of the row's block number `block`.
    pub fn of(blocks: &BlockRow, block: usize) -> Segment
        requires { block < ceiling blocks.now.width (2 ^ blocks.now.bits) }
        ensures width { result.width ≡ blocks.now.width }
        ensures from { result.from ≡ segment_start blocks.now.width blocks.now.bits block }
        ensures to { result.to ≡ segment_start blocks.now.width blocks.now.bits (block + 1) }
        ensures mode { OneMode blocks.now.width blocks.now.bits blocks.now.bytes.now result.from result.to result.mode }
    {
        Segment {
            mode: blocks.at(block).green,
            width: blocks.width,
            from: blocks.start(block).max(1),
            to: blocks.start(block + 1),
        }
    }
}

// Mode 0. This loop is vectorized; by `apply_predictor_transform` it goes byte by byte.
fn add_black(rows: &mut [u8], segment: Segment)
    requires { length rows.old ≡ 8 * segment.width }
    ensures { rows.new ≡ segment_gained 0 segment.width segment.from segment.to rows.old }
{
    let w = segment.width;
    update(
        rows,
        w + segment.from,
        w + segment.to,
        |v: Pixel| add_pixels(v, BLACK),
    );
}

// A mode that reads the left neighbor: it is carried. The residual is read last, so that the compiler adds to it in
// place.
fn apply_predictor_transform<const MODE: u8>(rows: &mut [u8], segment: Segment)
    requires { length rows.old ≡ 8 * segment.width }
    ensures { rows.new ≡ segment_gained MODE segment.width segment.from segment.to rows.old }
{
    let w = segment.width;
    replace_left(
        rows,
        w + segment.from,
        w + segment.to,
        |rows: &[u8], i: usize, left: Pixel| -> Pixel
            requires inside { (w + 1 ≤ i) × (i < w + w) × (8 * w ≤ length rows.now) }
            requires left { left ≡ pixels rows.now (i - 1) }
            ensures { result ≡ gains (around MODE w) (pixels rows.now) i }
        {
            let neighbors = Neighbors {
                l: left,
                t: pixel_at(rows, i - w),
                tr: pixel_at(rows, i - w + 1),
                tl: pixel_at(rows, i - w - 1),
            };
            let predicted = predict_pixel(MODE, neighbors);
            add_pixels(pixel_at(rows, i), predicted)
        },
    );
}

// A mode that reads the row above alone: a loop over bytes is vectorized, since no byte gains one that it rebuilt.
#[tactic(auto, unfolding(crate::specs::Bytewise::byte_gains))]
fn add_above<const MODE: u8>(rows: &mut [u8], segment: Segment)
    requires { Channelwise MODE × (length rows.old ≡ 8 * segment.width) }
    ensures { rows.new ≡ segment_gained MODE segment.width segment.from segment.to rows.old }
{
    let stride = 4 * segment.width;
    replace(
        rows,
        stride + 4 * segment.from,
        stride + 4 * segment.to,
        |rows: &[u8], i: usize| -> u8
            requires { (4 ≤ stride) × (stride + 4 ≤ i) × (i < length rows.now) }
            ensures { result ≡ byte_gains MODE stride (byte_at rows.now) i }
        {
            let predicted = byte_around::<MODE>(rows, stride, i);
            rows[i].wrapping_add(predicted)
        },
    );
}

// By its mode; modes 14 to 255 predict zero, which changes nothing. A `match`, since no value is a const parameter.
#[tactic(auto, using(crate::proofs::Modes::run_over_13))]
pub fn rebuild_segment(rows: &mut [u8], segment: Segment)
    requires { length rows.old ≡ 8 * segment.width }
    ensures { rows.new ≡ segment_gained segment.mode segment.width segment.from segment.to rows.old }
{
    match segment.mode {
        0 => add_black(rows, segment),
        1 => apply_predictor_transform::<1>(rows, segment),
        2 => add_above::<2>(rows, segment),
        3 => add_above::<3>(rows, segment),
        4 => add_above::<4>(rows, segment),
        5 => apply_predictor_transform::<5>(rows, segment),
        6 => apply_predictor_transform::<6>(rows, segment),
        7 => apply_predictor_transform::<7>(rows, segment),
        8 => add_above::<8>(rows, segment),
        9 => add_above::<9>(rows, segment),
        10 => apply_predictor_transform::<10>(rows, segment),
        11 => add_selected(rows, segment),
        12 => apply_predictor_transform::<12>(rows, segment),
        13 => apply_predictor_transform::<13>(rows, segment),
        _ => {}
    }
}
