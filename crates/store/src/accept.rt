// Whether storing accepts a picture: each pixel that reaches the table has an entry. No byte of the strip is written
// here.
ghost use Rattle.std.specs.Prelude.{◌≡◌};
ghost use Rattle.store.specs.Stage.{IsTable};
ghost use Rattle.store.specs.Turns.{accepted};

use crate::scratch::Scratch;
use crate::storing::Storing;

impl<'a> Storing<'a> {
    // Whether each pixel of the picture has an entry, where the first record is a table: all rows at once.
    pub fn accept_first(&self) -> bool
        requires { IsTable self.now.opened 0 }
        ensures { result ≡ accepted self.now }
    {
        self.lookup(0)
            .accept(&self.picture[..4 * self.opened.pixels()])
    }

    // Whether each pixel of the stage before record t, which is a table, has an entry.
    fn accept_rows(&self, t: usize, scratch: &mut Scratch) -> bool
        requires { IsTable self.now.opened t }
        ensures { result ≡ accepted self.now }
    {
        let before = self.accepted_by(t);
        let lookup = self.lookup(t);
        // A `for`, since each row is made in the scratch: no law of `all` is about a closure that changes what it
        // holds.
        for y in 0..self.opened.chain.height {
            before.make_row(y, scratch);
            if !lookup.accept(scratch.front(before.width)) {
                return false;
            }
        }
        true
    }

    // Whether storing accepts the picture.
    pub fn accepts(&self, scratch: &mut Scratch) -> bool
        ensures { result ≡ accepted self.now }
    {
        match &self.table {
            None => true,
            Some(table) if table.at == 0 => self.accept_first(),
            Some(table) => self.accept_rows(table.at, scratch),
        }
    }
}
