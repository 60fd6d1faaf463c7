// What a mode predicts of a byte. Both functions are inlined where the mode is a constant, so that a loop has the work
// of one mode alone.
ghost use Rattle.std.specs.Prelude.{◌≡◌, ◌+◌, ◌≤◌, ◌<◌, length};
ghost use Rattle.format.specs.Picture.{byte_at};
ghost use Rattle.predictor.specs.Bytewise.{predict_byte, byte_around};

use crate::neighbors::Neighbors;
use pixel::byte::{average2, average4, clamp_add_subtract_full, clamp_add_subtract_half};

// Of modes 0 and 11, which do not go channel by channel, it is 0.
#[inline(always)]
#[tactic(auto, unfolding(crate::specs::Bytewise::predict_byte))]
pub fn predict_byte(mode: u8, n: Neighbors<u8>) -> u8
    ensures { result ≡ predict_byte mode n.l n.t n.tr n.tl }
{
    let Neighbors { l, t, tr, tl } = n;
    match mode {
        0 => 0,
        1 => l,
        2 => t,
        3 => tr,
        4 => tl,
        5 => average2(average2(l, tr), t),
        6 => average2(l, tl),
        7 => average2(l, t),
        8 => average2(tl, t),
        9 => average2(t, tr),
        10 => average4(l, tl, t, tr),
        11 => 0,
        12 => clamp_add_subtract_full(l, t, tl),
        13 => clamp_add_subtract_half(l, t, tl),
        _ => 0,
    }
}

// The prediction of byte i of `rows`, which has `stride` bytes a row.
#[inline(always)]
#[tactic(auto, unfolding(crate::specs::Bytewise::byte_around))]
pub fn byte_around<const MODE: u8>(rows: &[u8], stride: usize, i: usize) -> u8
    requires { (4 ≤ stride) × (stride + 4 ≤ i) × (i < length rows.now) }
    ensures { result ≡ byte_around MODE stride (byte_at rows.now) i }
{
    predict_byte(
        MODE,
        Neighbors {
            l: rows[i - 4],
            t: rows[i - stride],
            tr: rows[i - stride + 4],
            tl: rows[i - stride - 4],
        },
    )
}
