//! Where a cell stands in the houses that have it.
#![tactic(auto, using(crate::proofs::LawSets::spots_laws))]

ghost use Rattle.std.specs.Prelude.{◌<◌, ◌≡◌, ◌≤◌, ◌*◌, ◌+◌, IfOk, length};
ghost use Rattle.gameid_core.specs.Head.{max_numbers};
ghost use Rattle.grid_core.specs.Candidates.{max_cells};
ghost use Rattle.solo_core.specs.Common.{IsSolo, solo_cells};
ghost use Rattle.solo_core.specs.OpenBoards.{AreAllSpots, AreSpotsAt, IsSizeOf, spot_of, spots_each};

use gameid_core::SoloPuzzle;
use grid_core::Fixed;
use std::alloc::{AllocError, Global};
use std::marker::Model;

/// A house that has a cell, and the cell's number in it.
#[derive(Clone, Copy)]
pub(crate) struct Spot {
    pub(crate) house: u8,
    pub(crate) cell: u8,
}

impl Spot {
    fn at(house: usize, cell: usize) -> Spot
        requires house { house < 256 }
        requires cell { cell < 256 }
        ensures { result ≡ record { house = house; cell = cell } }
    {
        Spot {
            house: house as u8,
            cell: cell as u8,
        }
    }
}

/// The spot with that number of the cell of the place: in its row, its column or its block, or in a diagonal that has it. Where
/// none has it, it is that in the row.
fn find_spot(c: u8, r: u8, place: usize, which: usize) -> Spot
    requires c_low { 1 ≤ c }
    requires r_low { 1 ≤ r }
    requires few { c * r ≤ max_numbers }
    requires place_in { place < (c * r) * (c * r) }
    ensures { result ≡ spot_of c r place which }
{
    let (tall, wide) = (usize::from(c), usize::from(r));
    let n = tall * wide;
    let (y, x) = (place / n, place % n);
    if which == 1 {
        return Spot::at(n + x, y);
    }
    if which == 2 {
        return Spot::at(
            2 * n + (y / tall * tall + x / wide),
            y % tall * wide + x % wide,
        );
    }
    if which == 3 && y == x {
        return Spot::at(3 * n, y);
    }
    if which == 4 && y + x + 1 == n {
        return Spot::at(3 * n + 1, y);
    }
    Spot::at(y, x)
}

/// How many spots are listed for each cell, with diagonals or without.
fn each(x: bool) -> usize
    ensures { result ≡ spots_each x }
{
    if x { 5 } else { 3 }
}

/// Writes the spots of all cells, so many of each.
fn write_spots(c: u8, r: u8, each: usize, spots: &mut [Spot])
    requires c_low { 1 ≤ c }
    requires r_low { 1 ≤ r }
    requires few { c * r ≤ max_numbers }
    requires some { 1 ≤ each }
    requires most { each ≤ 5 }
    requires room { c * r * (c * r) * each ≤ length spots.old }
    ensures as_many { length spots.new ≡ length spots.old }
    ensures spots { AreAllSpots c r each spots.new }
{
    let n = usize::from(c) * usize::from(r);
    for at in 0..n * n * each {
        spots[at] = find_spot(c, r, at / each, at % each);
    }
}

/// Where the cells of puzzles of one size stand in their houses.
#[derive(Drop)]
pub(crate) struct SpotTable {
    c: u8,
    r: u8,
    x: bool,
    spots: Fixed<Spot>,
}

impl Model for SpotTable {
    ghost use Rattle.solo_core.specs.OpenBoards.{IsSpotTable, SpotList};

    ghost Value = { SpotList };

    ghost view = { λ t. record { c = t.c; r = t.r; x = t.x; spots = t.spots.items } };

    ghost invariant = { λ t. IsSpotTable t.c t.r t.x t.spots.items };
}

impl SpotTable {
    /// A table of no size, with room for so many cells.
    ///
    /// # Errors
    ///
    /// When memory was refused.
    pub(crate) fn new(alloc: Global, cells: usize) -> Result<SpotTable, AllocError>
        requires { cells ≤ max_cells }
        ensures room { IfOk result (λ table. length table.spots ≡ cells * 5) }
    {
        Ok(SpotTable {
            c: 0,
            r: 0,
            x: false,
            spots: Fixed::copies(alloc, Spot { house: 0, cell: 0 }, cells * 5)?,
        })
    }

    /// Makes it that of the puzzle's size.
    pub(crate) fn fit(&mut self, puzzle: &SoloPuzzle)
        requires room { solo_cells puzzle.now * 5 ≤ length self.old.spots }
        ensures room { length self.new.spots ≡ length self.old.spots }
        ensures size { IsSizeOf puzzle.now self.new }
        ensures lawful { IsSolo puzzle.now }
    {
        let (c, r, x) = (puzzle.c(), puzzle.r(), puzzle.x());
        if self.c == c && self.r == r && self.x == x {
            return;
        }
        let spots: &mut [Spot] = &mut self.spots;
        write_spots(c, r, each(x), spots);
        self.c = c;
        self.r = r;
        self.x = x;
    }

    /// The spots of the cell of the place.
    pub(crate) fn at(&self, place: usize) -> &[Spot]
        requires { place < self.now.c * self.now.r * (self.now.c * self.now.r) }
        ensures { AreSpotsAt self.now.c self.now.r (spots_each self.now.x) place result.now }
    {
        let count = each(self.x);
        let spots: &[Spot] = &self.spots;
        let from = place * count;
        &spots[from..from + count]
    }
}
