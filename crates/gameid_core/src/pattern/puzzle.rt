//! The puzzles of Pattern.

ghost use Rattle.std.specs.Prelude.{◌≡◌, ◌<◌, ◌+◌, ◌*◌, ℕ, length, [], slice_index, slice_index_or, IfOk};
ghost use Rattle.gameid_core.specs.Common.{AreColumnRuns, AreRowRuns, IsGrid, IsPattern, Pattern, lines_of, lines_runs, pattern_puzzle};

use crate::pattern::black_runs::runs_of_lines;
use crate::pattern::clues::Clues;
use grid_core::{Grid, Size};
use std::alloc::{AllocError, Global};
use std::marker::Model;

/// The size of a grid, and a clue for each of its columns and rows.
#[derive(Debug, Drop)]
pub struct PatternPuzzle {
    pub(crate) size: Size,
    pub(crate) clues: Clues,
}

impl Model for PatternPuzzle {
    ghost use Rattle.gameid_core.specs.Puzzles.{Pattern, IsPattern, pattern_puzzle};

    ghost Value = { Pattern };

    ghost view = { λ p. pattern_puzzle p.size p.clues.clues };

    ghost invariant = { λ p. IsPattern (pattern_puzzle p.size p.clues.clues) };
}

impl PatternPuzzle {
    /// The puzzle of that size whose clues are the runs of the grid's lines: the clue of each
    /// column is its runs downwards, and the clue of each row its runs rightwards. The grid has 0
    /// for white and 1 for black.
    pub fn of_grid(alloc: Global, size: Size, grid: &Grid) -> Result<PatternPuzzle, AllocError>
        requires { IsGrid (size.w * size.h) 2 grid.now }
        ensures lawful { IfOk result (λ p. IsPattern p) }
        ensures exact { IfOk result (λ p. p ≡ pattern_puzzle size (lines_runs size grid.now)) }
        ensures size { IfOk result (λ p. p.size ≡ size) }
        ensures columns { IfOk result (λ p. AreColumnRuns size grid.now p.clues) }
        ensures rows { IfOk result (λ p. AreRowRuns size grid.now p.clues) }
    {
        let clues = runs_of_lines(alloc, size, grid)?;
        Ok(PatternPuzzle { size, clues })
    }

    /// The size of the grid.
    pub fn size(&self) -> Size
        ensures value { result ≡ self.now.size }
        ensures lawful { IsPattern self.now }
    {
        self.size
    }

    /// How many numbers a line's clue has. Lines are the columns from the left, and then the rows
    /// from the top.
    pub fn clue_len(&self, line: usize) -> usize
        requires { line < lines_of self.now.size }
        ensures value { result ≡ length (slice_index_or self.now.clues line []) }
        ensures lawful { IsPattern self.now }
    {
        self.clues.clue(line).len()
    }

    /// The k-th number of a line's clue, from 0: the length of the k-th black run, downwards or
    /// rightwards.
    pub fn clue(&self, line: usize, k: usize) -> u8
        requires line { line < lines_of self.now.size }
        requires number { k < length (slice_index_or self.now.clues line []) }
        ensures { result ≡ slice_index (slice_index_or self.now.clues line []) k }
    {
        self.clues.clue(line)[k]
    }

    /// How many lines there are.
    pub(crate) fn lines(&self) -> usize
        ensures value { result ≡ length self.now.clues }
        ensures lawful { IsPattern self.now }
    {
        self.clues.len()
    }

    /// A line's clue: the lengths of its black runs, downwards or rightwards. Lines are the columns
    /// from the left, and then the rows from the top.
    pub fn line(&self, line: usize) -> &[u8]
        requires { line < length self.now.clues }
        ensures { result.now ≡ slice_index_or self.now.clues line [] }
    {
        self.clues.clue(line)
    }
}
