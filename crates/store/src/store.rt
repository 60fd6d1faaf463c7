// A whole picture, from its buffer into the strip's.
ghost use Rattle.std.specs.Prelude.{◌≡◌, true};
ghost use Rattle.format.specs.Refusals.{returned};
ghost use Rattle.format.specs.Calls.{store_answer, store_strip};
ghost use Rattle.chain.specs.Valid.{HoldsStrip};
ghost use Rattle.store.specs.Stage.{IsTable};
ghost use Rattle.store.specs.Turns.{Stored};
ghost use Rattle.store.specs.Made.{chain_of, HoldsMade, made_in};

use crate::row::Accepted;
use crate::scratch::Scratch;
use crate::storing::Storing;
use chain::open;
use format::Refusal;
use pixel::row::row_bytes;

impl<'a> Accepted<'a> {
    // All rows.
    fn store_rows(&self, scratch: &mut Scratch, strip: &mut [u8])
        requires { HoldsMade self.now strip.old }
        ensures { strip.new ≡ made_in self.now strip.old }
    {
        for y in 0..self.storing.opened.chain.height {
            self.make_row(y, scratch);
            strip[row_bytes(y, self.width)].copy_from_slice(scratch.front(self.width));
        }
    }

    // All rows packed where they stand in the strip, by a table alone. This loop is no plainer with the one above in
    // one: the scratch that it does without takes longer to make than a small picture to pack.
    fn pack_rows(&self, strip: &mut [u8])
        requires alone { (self.now.count ≡ 1) × IsTable (chain_of self.now) 0 }
        requires room { HoldsMade self.now strip.old }
        ensures { strip.new ≡ made_in self.now strip.old }
    {
        for y in 0..self.storing.opened.chain.height {
            self.pack_first(y, &mut strip[row_bytes(y, self.width)]);
        }
    }
}

impl<'a> Storing<'a> {
    // Whether a table is the only record.
    fn table_alone(&self) -> bool
        ensures { result ≡ true → (self.now.opened.chain.count ≡ 1) × IsTable self.now.opened 0 }
    {
        self.opened.chain.count == 1 && self.table_first()
    }

    // Test 21, then the rows. A table alone needs no scratch. That the strip has room is asked here and of the loops
    // over rows: a struct around the lent strip would have to say what of it stays.
    fn store_strip(&self, strip: &mut [u8]) -> Result<(), Refusal>
        requires { HoldsStrip self.now.opened.chain strip.old }
        ensures { Stored self.now strip.old result strip.new }
    {
        if self.table_alone() {
            if !self.accept_first() {
                return Err(Refusal::NoEntry);
            }
            self.accepted_by(self.opened.chain.count).pack_rows(strip);
        } else {
            let mut scratch = Scratch {
                row: [0; 65536],
                rows: [0; 131072],
            };
            if !self.accepts(&mut scratch) {
                return Err(Refusal::NoEntry);
            }
            self.accepted_by(self.opened.chain.count)
                .store_rows(&mut scratch, strip);
        }
        Ok(())
    }
}

// Tests 1 to 8 and 21, then the rows.
#[tactic(auto, unfolding(format::specs::Calls::store_answer, format::specs::Calls::store_strip))]
pub fn store(
    width: usize,
    height: usize,
    chain: &[u8],
    data: &[u8],
    picture: &[u8],
    strip: &mut [u8],
) -> Result<(), Refusal>
    ensures value { returned result ≡ store_answer width height chain.now «data».now picture.now
        strip.old }
    ensures strip_after { strip.new ≡ store_strip width height chain.now «data».now
        picture.now strip.old }
{
    let opened = open(width, height, chain, data, picture, strip)?;
    Storing::new(opened, picture).store_strip(strip)
}
