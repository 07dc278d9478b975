//! The puzzles of Tents.

ghost use Rattle.std.specs.Prelude.{◌≡◌, ◌<◌, ◌≤◌, ◌+◌, ◌*◌, ℕ, IsTrue, IfOk, length, slice_index, ◌↔◌};
ghost use Rattle.gameid_core.specs.Common.{AreColumnOnes, AreRowOnes, IsGrid, IsTents, Tents, lines_of, lines_ones, tents_puzzle};

use crate::lines::ones::{numbers_of, ones_of_lines};
use grid_core::{Fixed, Grid, Size};
use std::alloc::{AllocError, Global};
use std::marker::Model;

/// The trees of a grid of at least 2 columns and 2 rows, and the number of tents of each column and
/// row, which is at most the line's cells.
#[derive(Debug, Drop)]
pub struct TentsPuzzle {
    pub(crate) size: Size,
    pub(crate) trees: Fixed<u8>,
    pub(crate) counts: Fixed<u8>,
}

impl Model for TentsPuzzle {
    ghost use Rattle.gameid_core.specs.Puzzles.{Tents, IsTents, tents_puzzle};

    ghost Value = { Tents };

    ghost view = { λ p. tents_puzzle p.size p.trees.items p.counts.items };

    ghost invariant = { λ p. IsTents (tents_puzzle p.size p.trees.items p.counts.items) };
}

impl TentsPuzzle {
    /// The puzzle of that size with these trees, whose numbers are those of the tents of each
    /// column and row. In both grids 1 is a tree or a tent, and 0 is none.
    #[tactic(auto, using(crate::proofs::LineLaws::ones_lawful))]
    pub fn of_parts(
        alloc: Global,
        size: Size,
        trees: &Grid,
        tents: &Grid,
    ) -> Result<TentsPuzzle, AllocError>
        requires w_two { 2 ≤ size.w }
        requires h_two { 2 ≤ size.h }
        requires trees { IsGrid (size.w * size.h) 2 trees.now }
        requires tents { IsGrid (size.w * size.h) 2 tents.now }
        ensures lawful { IfOk result (λ p. IsTents p) }
        ensures exact { IfOk result
            (λ p. p ≡ tents_puzzle size trees.now (lines_ones size tents.now)) }
        ensures size { IfOk result (λ p. p.size ≡ size) }
        ensures trees { IfOk result (λ p. p.trees ≡ trees.now) }
        ensures columns { IfOk result (λ p. AreColumnOnes size tents.now p.counts) }
        ensures rows { IfOk result (λ p. AreRowOnes size tents.now p.counts) }
    {
        let counts = ones_of_lines(alloc, size, tents)?;
        let trees = numbers_of(alloc, trees)?;
        Ok(TentsPuzzle {
            size,
            trees: Fixed::of(trees),
            counts: Fixed::of(counts),
        })
    }

    /// A copy of the puzzle.
    pub fn copy(&self, alloc: Global) -> Result<TentsPuzzle, AllocError>
        ensures { IfOk result (λ p. p ≡ self.now) }
    {
        let trees = self.trees().to_vec(alloc)?;
        let counts = self.counts().to_vec(alloc)?;
        Ok(TentsPuzzle {
            size: self.size,
            trees: Fixed::of(trees),
            counts: Fixed::of(counts),
        })
    }

    /// The size of the grid.
    pub fn size(&self) -> Size
        ensures value { result ≡ self.now.size }
        ensures lawful { IsTents self.now }
    {
        self.size
    }

    /// Whether a tree stands at a place. Places go row by row from the top left.
    pub fn tree(&self, place: usize) -> bool
        requires { place < self.now.size.w * self.now.size.h }
        ensures value { IsTrue result ↔ (slice_index self.now.trees place ≡ 1) }
        ensures lawful { IsTents self.now }
    {
        self.trees[place] == 1
    }

    /// The number of tents of a line. Lines are the columns from the left, and then the rows from
    /// the top.
    pub fn count(&self, line: usize) -> u8
        requires { line < lines_of self.now.size }
        ensures value { result ≡ slice_index self.now.counts line }
        ensures lawful { IsTents self.now }
    {
        self.counts[line]
    }

    /// The trees by place, 1 for a tree and 0 for any other cell.
    pub(crate) fn trees(&self) -> &[u8]
        ensures value { result.now ≡ self.now.trees }
        ensures lawful { IsTents self.now }
    {
        &self.trees
    }

    /// The number of tents of each line.
    pub(crate) fn counts(&self) -> &[u8]
        ensures value { result.now ≡ self.now.counts }
        ensures lawful { IsTents self.now }
    {
        &self.counts
    }
}
