// Storing a picture as a strip: each row goes through the records of the chain, first record first, in scratch rows,
// and is then copied into the strip. A table alone packs it there at once.
#![tactic(auto)]

mod accept;
mod row;
mod scratch;
mod step;
pub mod store;
mod storing;
mod table;
