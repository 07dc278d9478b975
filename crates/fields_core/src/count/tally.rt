//! How many cells of a count house have no 0, have a 1, or have neither, and what a visit keeps by that.
#![tactic(auto, using(crate::proofs::LawSets::tally_laws))]

ghost use Rattle.std.specs.Prelude.{◌<◌, ◌≡◌, ℕ};
ghost use Rattle.grid_core.specs.Board.{cells_of, has};
ghost use Rattle.fields_core.specs.Common.{IsHouse, IsTally, has_bit, house_told, value_stays};

use crate::count::house::{Bounds, House};
use grid_core::Board;

/// How many of a house's cells have no 0, how many have a 1, and how many have neither.
#[derive(Clone, Copy)]
pub struct Tally {
    pub(crate) must: u32,
    pub(crate) may: u32,
    pub(crate) empty: u32,
}

impl Tally {
    /// The tally of a house's cells.
    pub(crate) fn of(house: &House, board: &Board) -> Tally
        requires lawful { IsHouse (cells_of board.now) (house_told house.now) }
        requires values { board.now.values ≡ 2 }
        ensures { IsTally (has board.now) (house_told house.now).places result }
    {
        let (mut must, mut may, mut empty) = (0, 0, 0);
        for number in 0..4 {
            let segment = house.cells[number];
            for k in 0..segment.len() {
                let place = segment.place(k);
                let (zero, one) = (board.has(place, 0), board.has(place, 1));
                must += u32::from(!zero);
                may += u32::from(one);
                empty += u32::from(!zero & !one);
            }
        }
        Tally { must, may, empty }
    }

    /// What a visit of a house with these bounds keeps of a cell's set: of both values none whose bound is reached.
    pub(crate) fn kept(self, bounds: Bounds, both: bool) -> u32
        ensures { (v : ℕ) → v < 2 → has_bit result v ≡ value_stays self bounds both v }
    {
        let lacks = (self.empty > 0)
            | (bounds.most < bounds.least)
            | (self.may < bounds.least)
            | (bounds.most < self.must);
        let zero = !lacks & !(both & (self.may == bounds.least));
        let one = !lacks & !(both & (self.must == bounds.most));
        u32::from(zero) + 2 * u32::from(one)
    }
}
