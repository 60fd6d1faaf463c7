// A picture with one point painted, and the chain that it is stored by.
ghost use Rattle.chain.specs.Valid.{HoldsPicture};

use chain::record::ValidChain;
use format::Pixel;

// The point: its index in the picture, and its color.
#[derive(Clone, Copy)]
pub struct Point {
    pub index: usize,
    pub color: Pixel,
}

#[derive(Clone, Copy)]
pub struct Painted<'a> {
    pub opened: ValidChain<'a>,
    pub picture: &'a [u8],
    pub point: Point,
    pub ghost held: { HoldsPicture opened.chain picture.now },
}
