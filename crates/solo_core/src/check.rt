//! The check of a grid.
#![tactic(auto, using(crate::proofs::LawSets::check_laws))]

ghost use Rattle.std.specs.Prelude.{◌↔◌, ◌≡◌, None};
ghost use Rattle.solo_core.specs.Common.{IsGrid, IsSolo, IsSoloSolution, solo_n, solo_cells, IsSoloHouse, numbers_of, no_repeat};
ghost use Rattle.solo_core.specs.Faults.{IsSoloFault, fault_of as fault_of_house};

use crate::fault::SoloFault;
use crate::houses::house::NamedHouse;
use crate::houses::places::{cells, house, houses, place};
use crate::visits::bits::with_bit;
use engine_core::has_bit;
use gameid_core::SoloPuzzle;
use grid_core::Grid;

/// The first rule that the grid breaks, givens before rows, columns, blocks and diagonals, each kind by its numbers; `None`
/// where the grid is a solution. The grid has a number below `n` for each cell, which stands for the number one higher.
///
/// The rule is that of the manual of Simon Tatham's Portable Puzzle Collection, "Solo": every row, column and block has
/// every number once, and in Solo X each of both main diagonals too.
pub fn check_solo(puzzle: &SoloPuzzle, grid: &Grid) -> Option<SoloFault>
    requires fits { IsGrid (solo_cells puzzle.now) (solo_n puzzle.now) grid.now }
    ensures lawful { IsSolo puzzle.now }
    ensures fault { IsSoloFault puzzle.now grid.now result }
    ensures solution { (result ≡ None) ↔ IsSoloSolution puzzle.now grid.now }
{
    first_fault(puzzle, grid)
}

/// The same, without what it says of solutions.
fn first_fault(puzzle: &SoloPuzzle, grid: &Grid) -> Option<SoloFault>
    requires fits { IsGrid (solo_cells puzzle.now) (solo_n puzzle.now) grid.now }
    ensures lawful { IsSolo puzzle.now }
    ensures fault { IsSoloFault puzzle.now grid.now result }
{
    for place in 0..cells(puzzle) {
        let given = puzzle.given(place);
        if given != 0 && grid.get(place) + 1 != given {
            return Some(SoloFault::Given(place));
        }
    }
    for number in 0..houses(puzzle) {
        let house = house(puzzle, number);
        if !holds_each_once(puzzle, grid, house) {
            return Some(fault_of(house));
        }
    }
    None
}

/// Whether the house holds no number twice.
fn holds_each_once(puzzle: &SoloPuzzle, grid: &Grid, house: NamedHouse) -> bool
    requires fits { IsGrid (solo_cells puzzle.now) (solo_n puzzle.now) grid.now }
    requires house_of { IsSoloHouse puzzle.now house }
    ensures { result ≡ no_repeat (numbers_of puzzle.now grid.now house) }
{
    let mut seen = 0;
    for k in 0..usize::from(puzzle.n()) {
        let number = grid.get(place(puzzle, house, k));
        if has_bit(seen, number) {
            return false;
        }
        seen = with_bit(seen, usize::from(number));
    }
    true
}

/// The fault of a house.
fn fault_of(house: NamedHouse) -> SoloFault
    ensures { result ≡ fault_of_house house }
{
    match house {
        NamedHouse::Row(y) => SoloFault::Row(y),
        NamedHouse::Column(i) => SoloFault::Column(i),
        NamedHouse::Block(b) => SoloFault::Block(b),
        NamedHouse::Diagonal(d) => SoloFault::Diagonal(d),
    }
}
