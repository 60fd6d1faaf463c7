// Byte arithmetic; pixels by value, read from a buffer and written to it; loops that replace the cells of a buffer;
// where rows stand; the blocks that share a data pixel; the entries of a color table; the two strides.
#![tactic(auto)]

pub mod block;
pub mod byte;
pub mod cell;
pub mod choice;
pub mod entries;
pub mod pixel;
pub mod replace;
pub mod row;
pub mod stride;
pub mod word;
