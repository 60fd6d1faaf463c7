// The predictor transform, a row at a time.
#![tactic(auto)]

mod bytes;
pub mod forward;
pub mod inverse;
pub mod mode;
pub mod neighbors;
mod residual;
mod row;
mod segment;
mod select;
