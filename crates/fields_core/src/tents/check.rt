//! The check of a grid of Tents.
#![tactic(auto, using(crate::proofs::LawSets::tent_check_laws))]

ghost use Rattle.std.specs.Prelude.{◌==◌, ◌↔◌, ◌≡◌, IfOk, None, ℕ, count_by, length};
ghost use Rattle.fields_core.specs.Common.{AreBelow, HasPairingRoom, IsGrid, IsTentFault, IsTentSolution, segment_places, tent, tent_cells};

use crate::count::house::{Segment, next_passing};
use crate::tents::cells::{column_number, is_tree, row_number};
use crate::tents::fault::TentFault;
use crate::tents::pairs::{PairingScratch, are_paired};
use crate::tents::touch::touches_tent;
use gameid_core::TentsPuzzle;
use grid_core::Grid;
use std::alloc::{AllocError, Global};

/// Whether so many tents stand in the run.
fn has_tents(grid: &Grid, run: Segment, number: u8) -> bool
    requires { AreBelow (length grid.now) (segment_places run) }
    ensures { result ≡ (count_by (tent grid.now) (segment_places run) == number) }
{
    let mut tents = 0;
    for k in 0..run.len() {
        tents += usize::from(grid.get(run.place(k)) == 1);
    }
    tents == usize::from(number)
}

/// What is wrong with a grid of Tents.
pub(crate) fn find_fault(
    puzzle: &TentsPuzzle,
    grid: &Grid,
    scratch: &mut PairingScratch,
) -> Option<TentFault>
    requires fits { IsGrid (tent_cells puzzle.now) 2 grid.now }
    requires room { HasPairingRoom scratch.old (tent_cells puzzle.now) }
    ensures fault { IsTentFault puzzle.now grid.now result }
    ensures room { (n : ℕ) → HasPairingRoom scratch.old n → HasPairingRoom scratch.new n }
{
    let size = puzzle.size();
    let end = size.cells();
    if let Some(place) = next_passing(0, end, |c| grid.get(c) != 0 && is_tree(puzzle, c)) {
        return Some(TentFault::Tree(place));
    }
    if let Some(place) = next_passing(0, end, |c| grid.get(c) == 1 && touches_tent(size, grid, c)) {
        return Some(TentFault::Touch(place));
    }
    let is_column_wrong = |x| !has_tents(grid, Segment::column(size, x), column_number(puzzle, x));
    if let Some(x) = next_passing(0, usize::from(size.w()), is_column_wrong) {
        return Some(TentFault::Column(x));
    }
    let is_row_wrong = |y| !has_tents(grid, Segment::row(size, y), row_number(puzzle, y));
    if let Some(y) = next_passing(0, usize::from(size.h()), is_row_wrong) {
        return Some(TentFault::Row(y));
    }
    if are_paired(puzzle, grid, scratch) {
        return None;
    }
    Some(TentFault::Match)
}

/// What is wrong with a grid of Tents, 1 at a tent and 0 elsewhere: the first broken rule, in the order of
/// `TentFault`, at the lowest place, column or row. `None` means that the grid is a solution: no tent stands on a
/// tree, no two tents touch at a side or a corner, each column and row has its number of tents, and the tents can be
/// paired one to one with the trees so that each tent is beside its own tree (the rules of Tents in the manual of
/// Simon Tatham's Portable Puzzle Collection).
pub fn check_tents(
    alloc: Global,
    puzzle: &TentsPuzzle,
    grid: &Grid,
) -> Result<Option<TentFault>, AllocError>
    requires fits { IsGrid (tent_cells puzzle.now) 2 grid.now }
    ensures fault { IfOk result (λ fault. IsTentFault puzzle.now grid.now fault) }
    ensures solution { IfOk result (λ fault. (fault ≡ None) ↔ IsTentSolution puzzle.now grid.now) }
{
    let mut scratch = PairingScratch::new(alloc, puzzle.size().cells())?;
    let fault = find_fault(puzzle, grid, &mut scratch);
    Ok(fault)
}
