// The color transform and subtract green.
#![tactic(auto)]

pub mod color;
mod factor;
pub mod subtract_green;
