// What storing a picture works by.
ghost use Rattle.std.specs.Prelude.{◌≡◌, true};
ghost use Rattle.chain.specs.Valid.{HoldsPicture};
ghost use Rattle.store.specs.Stage.{IsTable, TableAt, TableFor, Looks};

use crate::table::Table;
use chain::record::ValidChain;
use color_table::lookup::Lookup;
use format::TransformType;

// A picture with the chain that was opened for it.
#[derive(Drop)]
pub struct Storing<'a> {
    pub opened: ValidChain<'a>,
    pub picture: &'a [u8],
    pub table: Option<Table<'a>>,
    pub ghost held: { HoldsPicture opened.chain picture.now },
    pub ghost found: { TableFor opened table },
}

// The number of the table's record.
fn table_at(opened: &ValidChain) -> Option<usize>
    ensures { TableAt opened.now result }
{
    (0..opened.chain.count).find(|k| {
        opened.record(*k).transform_type() == TransformType::ColorTable
    })
}

fn table_of<'a>(opened: &ValidChain<'a>) -> Option<Table<'a>>
    ensures { TableFor opened.now result }
{
    let at = table_at(opened)?;
    let record = opened.record(at);
    let lookup = Lookup::new(&record.entries());
    Some(Table { at, lookup })
}

impl<'a> Storing<'a> {
    pub fn new(opened: ValidChain<'a>, picture: &'a [u8]) -> Self
        requires { HoldsPicture opened.chain picture.now }
        ensures { (result.opened ≡ opened.entry) × (result.picture.now ≡ picture.now) }
    {
        Storing {
            opened,
            picture,
            table: table_of(&opened),
        }
    }

    // Whether the first record is a table.
    pub fn table_first(&self) -> bool
        ensures { result ≡ true → IsTable self.now.opened 0 }
    {
        self.table.as_ref().is_some_and(|table| table.at == 0)
    }

    // What finds the entries of record k. By its number: `advance` comes to the table from its record alone, and the
    // others would have to ask, if the `Table` were passed, that it is this chain's.
    pub fn lookup(&self, k: usize) -> &Lookup<'a>
        requires { IsTable self.now.opened k }
        ensures { Looks self.now.opened k result.now }
    {
        &self.table.as_ref().unwrap().lookup
    }
}
