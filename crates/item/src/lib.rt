// One item of a stage, made of the picture around it, with no pass over the picture. An item is a pixel of the
// picture or of a later stage, or a record of the strip.
#![tactic(auto)]

mod around;
mod mode;
pub mod painted;
pub mod place;
mod predict;
mod residual;
mod table;

ghost use Rattle.std.specs.Prelude.{◌≡◌, suc, ◌+◌, ◌*◌, ◌/◌, ◌%◌, ◌<◌, ◌≤◌, length};
ghost use Rattle.format.specs.ColorTable.{per_pixel};
ghost use Rattle.item.specs.Neighbors.{neighbor_made};
ghost use Rattle.item.specs.Source.{shown, step_of, items_after, item_of, Stands};
ghost use Rattle.item.specs.Table.{record_made};

use crate::around::{Neighbor, neighbor_index};
use crate::mode::mode_at;
use crate::painted::Painted;
use crate::place::{Place, Stage};
use crate::predict::names;
use crate::residual::residual_of;
use crate::table::{joined, record_of, repeated};
use color::color::transform_pixel;
use color::subtract_green::store_pixel;
use format::{Pixel, TransformType};
use pixel::pixel::{CLEAR, pixel_at};
use pixel::stride::{Expanded, packed_width, per_pixel};
use predictor::neighbors::Neighbors;

// Most methods take k, the number of a record, beside the picture: the recursion counts it down. That item q is one of
// stage k is asked of each, as of any index.
impl<'a> Painted<'a> {
    // Pixel q of the picture, where the point is painted.
    #[tactic(auto, using(crate::proofs::Before::shown_here, crate::proofs::Before::shown_off))]
    fn pixel(&self, q: usize) -> Pixel
        requires { 4 * q + 4 ≤ length self.now.picture.now }
        ensures { result ≡ shown self.now.picture.now self.now.point q }
    {
        if q == self.point.index {
            self.point.color
        } else {
            pixel_at(self.picture, q)
        }
    }

    // Where item q stands before record k.
    fn place(&self, k: usize, q: usize) -> Place
        requires { (k < self.now.opened.chain.count) × (q < items_after self.now k) }
        ensures stands { Stands self.now k result }
        ensures column { result.x ≡ q % (step_of self.now k).width }
        ensures row { result.y ≡ q / (step_of self.now k).width }
    {
        Place::of(q, Stage(self.opened.record(k).step.width))
    }

    // Item q after the first k records; None where it cannot be made.
    #[cycle(making)]
    #[tactic(auto, using(crate::proofs::Stage::made_first))]
    pub fn item(&self, k: usize, q: usize) -> Option<Pixel>
        requires { (k ≤ self.now.opened.chain.count) × (q < items_after self.now k) }
        ensures { result ≡ item_of self.now k q }
    {
        if k == 0 {
            Some(self.pixel(q))
        } else {
            self.after(k - 1, q)
        }
    }

    // Item q after record k.
    #[cycle(making)]
    fn after(&self, k: usize, q: usize) -> Option<Pixel>
        requires { (k < self.now.opened.chain.count) × (q < items_after self.now (suc k)) }
        ensures { result ≡ item_of self.now (suc k) q }
    {
        let record = self.opened.record(k);
        let s = record.step;
        match record.transform_type() {
            TransformType::Predictor => self.residual(k, q),
            TransformType::Color => {
                let at = self.place(k, q);
                let e = record.blocks().at(at.x, at.y);
                self.item(k, q).map(|v| transform_pixel(e, v))
            },
            TransformType::SubtractGreen => self.item(k, q).map(store_pixel),
            TransformType::ColorTable => {
                let n = per_pixel(s.size);
                let at = Place::of(q, packed_width(Expanded(s.width), s.size));
                let first = Place {
                    x: at.x * n,
                    y: at.y,
                };
                self.packed(k, n, first)
            },
        }
    }

    // Item q after the predictor, which is record k.
    #[cycle(making)]
    fn residual(&self, k: usize, q: usize) -> Option<Pixel>
        requires inside { (k < self.now.opened.chain.count) × (q < items_after self.now k) }
        requires kind { (step_of self.now k).kind ≡ 0 }
        ensures { result ≡ item_of self.now (suc k) q }
    {
        let at = self.place(k, q);
        let mode = mode_at(&self.opened.record(k).blocks(), at);
        residual_of(
            mode,
            self.item(k, q),
            Neighbors {
                l: self.neighbor(k, mode, Neighbor::Left, at),
                t: self.neighbor(k, mode, Neighbor::Top, at),
                tr: self.neighbor(k, mode, Neighbor::TopRight, at),
                tl: self.neighbor(k, mode, Neighbor::TopLeft, at),
            },
        )
    }

    // A neighbor of a place before record k. One that the mode does not name is not made: any pixel stands for it.
    #[cycle(making)]
    #[tactic(auto, using(crate::proofs::Before::neighbor_before), unfolding(crate::specs::Made::asked))]
    fn neighbor(&self, k: usize, mode: u8, n: Neighbor, at: Place) -> Option<Pixel>
        requires { Stands self.now k at }
        ensures { result ≡ neighbor_made self.now k mode n at }
    {
        if names(mode, n) {
            self.item(k, neighbor_index(n, at, self.opened.record(k).step.width))
        } else {
            Some(CLEAR)
        }
    }

    // The record of n positions from a place on, by the table that is record k. The index of the row's last column is
    // at the positions after it too.
    #[cycle(making)]
    #[tactic(auto, using(crate::proofs::Columns::no_columns))]
    fn packed(&self, k: usize, n: usize, at: Place) -> Option<Pixel>
        requires stands { Stands self.now k at }
        requires kind { (step_of self.now k).kind ≡ 3 }
        requires few { n ≤ per_pixel (step_of self.now k).size }
        ensures { result ≡ record_made self.now k at.y n at.x }
    {
        if n == 0 {
            return Some(record_of(0));
        }
        let record = self.opened.record(k);
        let entries = record.entries();
        let width = record.step.width;
        let first = self.item(k, at.index(Expanded(width)));
        if width <= at.x + 1 {
            return repeated(&entries, first, n);
        }
        let next = Place {
            x: at.x + 1,
            y: at.y,
        };
        joined(&entries, first, self.packed(k, n - 1, next))
    }
}
