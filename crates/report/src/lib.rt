// Counts of a picture's pixels by color, added to counters.
#![tactic(auto)]

mod colors;
mod count;
mod counters;
pub mod report;
