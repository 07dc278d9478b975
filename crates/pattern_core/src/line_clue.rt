//! The clue of a line, spelled in words of 64 bits where they have room for it.

ghost use Rattle.std.specs.Prelude.{◌≡◌, ◌<◌, ◌*◌, true};
ghost use Rattle.pattern_core.specs.Below.{IsGrid, IsPattern, line_numbers, lines_of};
ghost use Rattle.pattern_core.specs.LineRules.{numbers_in};
ghost use Rattle.pattern_core.specs.Lines.{clue_of, has_runs, IsRoomy};

use crate::meets::meets;
use crate::track::{SpelledClue, measured};
use gameid_core::PatternPuzzle;
use grid_core::{Grid, MAX_SIDE, Size};

/// The most cells of a line.
pub(crate) const LONGEST: usize = MAX_SIDE as usize;

/// The rows of a table for a line, in words of either width.
#[derive(Drop)]
pub(crate) struct Rows {
    pub(crate) short: [u64; LONGEST + 1],
    pub(crate) long: [u128; LONGEST + 1],
}

impl Rows {
    /// Rows of zeros, to be written.
    pub(crate) fn new() -> Rows {
        Rows {
            short: [0; LONGEST + 1],
            long: [0; LONGEST + 1],
        }
    }
}

/// The clue of a line.
#[derive(Drop)]
pub(crate) enum LineClue {
    /// A clue of at most 63 cells, each run with the white cell after it.
    Short(SpelledClue<u64>),
    /// A clue of at most 127.
    Long(SpelledClue<u128>),
}

impl LineClue {
    /// The clue of a line of the puzzle.
    #[inline(always)]
    pub(crate) fn new(puzzle: &PatternPuzzle, line: usize) -> LineClue
        requires lawful { IsPattern puzzle.now }
        requires line { line < lines_of puzzle.now.size }
        ensures { numbers_in result ≡ clue_of puzzle.now line }
    {
        let numbers = puzzle.line(line);
        let (cells, from) = measured(numbers);
        if cells < 64 {
            LineClue::Short(SpelledClue::new(numbers, from))
        } else {
            LineClue::Long(SpelledClue::new(numbers, from))
        }
    }

    /// Whether a line of so many cells is known to be roomy for the clue.
    pub(crate) fn is_roomy(&self, cells: usize) -> bool
        requires { cells < 1000 }
        ensures { result ≡ true → IsRoomy (numbers_in self.now) cells }
    {
        match self {
            LineClue::Short(clue) => clue.is_roomy(cells),
            LineClue::Long(clue) => clue.is_roomy(cells),
        }
    }

    /// Whether the line's runs are the clue.
    pub(crate) fn is_met(&self, size: Size, grid: &Grid, line: usize) -> bool
        requires grid { IsGrid (size.w * size.h) 2 grid.now }
        requires line { line < lines_of size }
        ensures { result ≡ has_runs (numbers_in self.now) (line_numbers size grid.now line) }
    {
        match self {
            LineClue::Short(clue) => meets(size, grid, line, clue),
            LineClue::Long(clue) => meets(size, grid, line, clue),
        }
    }
}
