//! Whether the tents of a grid can be paired with the trees.
#![tactic(auto, using(crate::proofs::LawSets::tent_pairs_laws))]

ghost use Rattle.std.specs.Prelude.{◌<◌, ◌≡◌, ◌≤◌, IfOk, ℕ, length, take};
ghost use Rattle.fields_core.specs.Common.{AreIn, AreNumbered, HasPairingRoom, IsGrid, IsNext, IsTents, can_be_paired, may_pair, tent, tent_cells, tent_places, tree_beside, tree_count};

use crate::tents::cells::is_tree;
use gameid_core::TentsPuzzle;
use grid_core::{Edges, Fixed, Grid, Paired, Pairing, step};
use std::alloc::{AllocError, Global};

/// What tents are paired with trees in: room for a pairing, for the places of the tents, and for a number of each cell.
#[derive(Drop)]
pub struct PairingScratch {
    pub(crate) pairing: Pairing,
    pub(crate) tents: Fixed<usize>,
    pub(crate) numbers: Fixed<usize>,
}

impl PairingScratch {
    /// Room for grids of so many cells.
    pub(crate) fn new(alloc: Global, cells: usize) -> Result<PairingScratch, AllocError>
        ensures { IfOk result (λ scratch. HasPairingRoom scratch cells) }
    {
        Ok(PairingScratch {
            pairing: Pairing::new(alloc, cells)?,
            tents: Fixed::copies(alloc, 0, cells)?,
            numbers: Fixed::copies(alloc, 0, cells)?,
        })
    }
}

/// The tents of a grid, by place, and the trees of the puzzle, by place. A tent is joined to the trees beside it.
#[derive(Drop)]
struct TentEdges<'a> {
    puzzle: &'a TentsPuzzle,
    tents: &'a [usize],
    numbers: &'a [usize],
    trees: usize,
    ghost within: { AreIn puzzle.now tents.now },
    ghost numbered: { AreNumbered puzzle.now numbers.now },
    ghost all_trees: { trees ≡ tree_count puzzle.now },
}

impl Edges for TentEdges<'_> {
    ghost left_count = { λ e. length e.tents.now };

    ghost right_count = { λ e. tree_count e.puzzle.now };

    ghost joins = { λ e. may_pair e.puzzle.now e.tents.now };

    fn lefts(&self) -> usize {
        self.tents.len()
    }

    fn rights(&self) -> usize {
        self.trees
    }

    fn next(&self, left: usize, from: usize) -> Option<usize> {
        next_tree(self.puzzle, self.numbers, self.tents[left], from)
    }
}

/// The least number at or after `from` of a tree beside the cell.
fn next_tree(puzzle: &TentsPuzzle, numbers: &[usize], place: usize, from: usize) -> Option<usize>
    requires place_in { place < tent_cells puzzle.now }
    requires numbered { AreNumbered puzzle.now numbers.now }
    ensures { IsNext (tree_beside puzzle.now place) (tree_count puzzle.now) from result }
{
    let size = puzzle.size();
    for direction in 0..4 {
        if let Some(other) = step(size, place, direction) {
            if is_tree(puzzle, other) && numbers[other] >= from {
                return Some(numbers[other]);
            }
        }
    }
    None
}

/// Writes the places of the tents, and says how many there are.
fn list_tents(puzzle: &TentsPuzzle, grid: &Grid, tents: &mut [usize]) -> usize
    requires fits { IsGrid (tent_cells puzzle.now) 2 grid.now }
    requires room { tent_cells puzzle.now ≤ length tents.old }
    ensures listed { take result tents.new ≡ tent_places puzzle.now grid.now }
    ensures few { result ≤ tent_cells puzzle.now }
    ensures as_long { length tents.new ≡ length tents.old }
{
    let mut count = 0;
    for place in 0..puzzle.size().cells() {
        if grid.get(place) == 1 {
            tents[count] = place;
            count += 1;
        }
    }
    count
}

/// Writes for each cell how many trees stand before it, and says how many there are.
fn number_trees(puzzle: &TentsPuzzle, numbers: &mut [usize]) -> usize
    requires { tent_cells puzzle.now ≤ length numbers.old }
    ensures count { result ≡ tree_count puzzle.now }
    ensures lawful { IsTents puzzle.now }
    ensures numbered { AreNumbered puzzle.now numbers.new }
    ensures as_long { length numbers.new ≡ length numbers.old }
    ensures few { result ≤ tent_cells puzzle.now }
{
    let mut trees = 0;
    for place in 0..puzzle.size().cells() {
        numbers[place] = trees;
        trees += usize::from(is_tree(puzzle, place));
    }
    trees
}

/// Whether the tents can be paired one to one with the trees so that each tent is beside its own tree.
pub(crate) fn are_paired(puzzle: &TentsPuzzle, grid: &Grid, scratch: &mut PairingScratch) -> bool
    requires fits { IsGrid (tent_cells puzzle.now) 2 grid.now }
    requires room { HasPairingRoom scratch.old (tent_cells puzzle.now) }
    ensures paired { result ≡ can_be_paired puzzle.now grid.now }
    ensures lawful { IsTents puzzle.now }
    ensures room { (n : ℕ) → HasPairingRoom scratch.old n → HasPairingRoom scratch.new n }
{
    let count = list_tents(puzzle, grid, &mut scratch.tents);
    let trees = number_trees(puzzle, &mut scratch.numbers);
    if count != trees {
        return false;
    }
    let edges = TentEdges {
        puzzle,
        tents: &scratch.tents[..count],
        numbers: &scratch.numbers,
        trees,
    };
    matches!(scratch.pairing.run(&edges), Paired::All)
}
