// Arithmetic on single bytes. Clamping is by saturating sums and differences of bytes, which compile to one instruction
// each and to no branch.
ghost use Rattle.std.specs.Prelude.{◌≡◌, ◌<◌};
ghost use Rattle.format.specs.Byte.{avg, distance as distance_of, clamp_full, clamp_half};

// The shared bits plus half of the differing bits: no division, and no sum that a byte does not hold.
pub fn average2(a: u8, b: u8) -> u8
    ensures { result ≡ avg a b }
{
    (a & b) + ((a ^ b) >> 1)
}

// The average of two averages, each rounded down.
pub fn average4(a: u8, b: u8, c: u8, d: u8) -> u8
    ensures { result ≡ avg (avg a b) (avg c d) }
{
    average2(average2(a, b), average2(c, d))
}

// One of `up` and `down` is 0.
pub fn clamp_add_subtract_full(l: u8, t: u8, tl: u8) -> u8
    ensures { result ≡ clamp_full l t tl }
{
    let up = t.saturating_sub(tl);
    let down = tl.saturating_sub(t);
    l.saturating_add(up).saturating_sub(down)
}

pub fn clamp_add_subtract_half(l: u8, t: u8, tl: u8) -> u8
    ensures { result ≡ clamp_half l t tl }
{
    let m = average2(l, t);
    let up = m.saturating_sub(tl) / 2;
    let down = tl.saturating_sub(m) / 2;
    m.saturating_add(up).saturating_sub(down)
}

// By the greater and the lesser byte: `abs_diff` compiles to a branch, by which mode 11 takes longer than the Rust.
pub fn distance(a: u8, b: u8) -> u32
    ensures { (result ≡ distance_of a b) × (result < 256) }
{
    (a.max(b) - a.min(b)) as u32
}
