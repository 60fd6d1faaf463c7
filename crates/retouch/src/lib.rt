// Retouching: one pixel of the picture is painted, and the strip's records that it belongs to are made afresh.
#![tactic(auto)]

pub mod changes;
mod decide;
mod mask;
mod records;
mod remake;
pub mod retouch;
mod spots;
mod strip;
