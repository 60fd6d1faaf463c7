// The color table: unpacking indices in place, and storing a picture as packed indices.
#![tactic(auto)]

pub mod accept;
mod each;
pub mod find;
mod flat;
mod four;
pub mod groups;
pub mod lookup;
pub mod pack;
mod runs;
pub mod table;
pub mod unpack;
