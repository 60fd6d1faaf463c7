// Records of indices, index by index.
ghost use Rattle.std.specs.Prelude.{◌≡◌, ◌^◌, ◌<◌, ◌≤◌};
ghost use Rattle.format.specs.Pixel.{pixel};
ghost use Rattle.format.specs.Picture.{pixels};
ghost use Rattle.format.specs.ColorTable.{per_pixel, digits};
ghost use Rattle.color_table.specs.Found.{found};
ghost use Rattle.item.specs.Table.{joined_made, repeated_made, Room};

use color_table::find::scan;
use color_table::table::index_range;
use format::Pixel;
use pixel::entries::Entries;
use pixel::word::Word;

pub fn record_of(byte: u8) -> Pixel
    ensures { result ≡ pixel 0 byte 0 255 }
{
    Pixel {
        red: 0,
        green: byte,
        blue: 0,
        alpha: 255,
    }
}

// The byte of n positions that all have the index i.
fn repeated_index(i: usize, n: usize, range: usize) -> u8
    requires { (i < range) × (range ^ n ≤ 256) }
    ensures { result ≡ digits range n (λ k. i) }
{
    (0..n).fold(0, |byte, _| i + range * byte) as u8
}

// The lowest index of a pixel that has an entry.
#[tactic(auto, using(crate::proofs::Columns::found_entries))]
fn index(entries: &Entries, v: Pixel) -> Option<usize>
    ensures { result ≡ found entries.now.size (pixels entries.now.bytes.now) v }
{
    scan(&entries.bytes[..4 * entries.size], Word::from(v))
}

// The record of n positions that all have the index of an item.
#[tactic(auto, using(crate::proofs::Columns::found_inside, crate::proofs::Columns::fewer_fit), unfolding(crate::specs::Table::repeated_made))]
pub fn repeated(entries: &Entries, item: Option<Pixel>, n: usize) -> Option<Pixel>
    requires { n ≤ per_pixel entries.now.size }
    ensures { result ≡ repeated_made entries.now.size (pixels entries.now.bytes.now) n item }
{
    let i = index(entries, item?)?;
    Some(record_of(repeated_index(i, n, index_range(entries.size))))
}

// The record of a column and of the positions after it, by the record of these.
#[tactic(auto, using(crate::proofs::Columns::found_inside, crate::proofs::Columns::byte_fits), unfolding(crate::specs::Table::joined_made))]
pub fn joined(entries: &Entries, first: Option<Pixel>, rest: Option<Pixel>) -> Option<Pixel>
    requires { Room entries.now.size rest }
    ensures { result ≡ joined_made entries.now.size (pixels entries.now.bytes.now) first rest }
{
    let v = first?;
    let r = rest?;
    let i = index(entries, v)?;
    let byte = i + index_range(entries.size) * (r.green as usize);
    Some(record_of(byte as u8))
}
