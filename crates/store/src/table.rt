// The table among a chain's records.
use color_table::lookup::Lookup;

// Its number, and what finds its entries.
#[derive(Drop)]
pub struct Table<'a> {
    pub at: usize,
    pub lookup: Lookup<'a>,
}
