//! The lines of a puzzle as the houses of a search: the columns from the left, and then the rows from the top.

ghost use Rattle.std.specs.Prelude.{◌≡◌, ◌<◌, ◌≤◌, IfOk, false, true, length, refl};
ghost use Rattle.pattern_core.specs.Below.{IsBoardOf, IsExtent, IsIdle, after, lines_of, max_side};
ghost use Rattle.grid_core.specs.Board.{has, SameShape};
ghost use Rattle.engine_core.specs.Closing.{HasStruck};
ghost use Rattle.engine_core.specs.declared.mode.Mode.TheVariants.{Queue};
ghost use Rattle.pattern_core.specs.Lines.{clue_of};
ghost use Rattle.pattern_core.specs.LinePlanes.{IsIdleAtStart};
ghost use Rattle.pattern_core.specs.LineRules.{line_rules, numbers_in};

use crate::line_cells::cells_of_line;
use crate::line_clue::{LONGEST, LineClue};
use crate::line_scratch::LineScratch;
use crate::planes::filter::filter_sets;
use engine_core::{Mode, Rules, apply, gather};
use gameid_core::PatternPuzzle;
use grid_core::{Board, Fixed, Grid, Size, line_count, line_len, line_place};
use std::alloc::{AllocError, Global};
use std::marker::Model;

/// How many values a cell has: 0 for white and 1 for black.
const VALUES: u8 = 2;

/// The rules of one puzzle, to be searched: each column and each row strikes what no filling with its clue's runs
/// has. They keep a copy of what they need of the puzzle. A search reads the sets of a line's cells and decides in two passes
/// over them what is kept. A visit takes no memory.
#[derive(Drop)]
pub struct PatternLines {
    size: Size,
    clues: Fixed<LineClue>,
    ghost extent: { IsExtent size },
}

impl Model for PatternLines {
    ghost use Rattle.gameid_core.specs.Puzzles.{IsPattern};
    ghost use Rattle.pattern_core.specs.LineRules.{LawfulPattern, pattern_with};

    ghost Value = { LawfulPattern };

    ghost view = { λ r. record { pattern = pattern_with r.size r.clues.items; extent = r.extent } };

    ghost invariant = { λ r. IsPattern (pattern_with r.size r.clues.items) };
}

impl PatternLines {
    /// The rules of the puzzle.
    pub fn new(alloc: Global, puzzle: &PatternPuzzle) -> Result<PatternLines, AllocError>
        ensures { IfOk result (λ rules. rules.pattern ≡ puzzle.now) }
    {
        let size = puzzle.size();
        let count = line_count(size);
        let mut clues = Vec::with_capacity(alloc, count)?;
        for line in 0..count {
            clues.push(LineClue::new(puzzle, line))?;
        }
        Ok(PatternLines {
            size,
            clues: Fixed::of(clues),
        })
    }

    /// The size of the grid.
    pub(crate) fn size(&self) -> Size
        ensures { result ≡ self.now.pattern.size }
    {
        self.size
    }

    /// How many columns there are.
    fn columns(&self) -> usize
        ensures { result ≡ self.now.pattern.size.w }
    {
        usize::from(self.size.w())
    }

    /// The clue of a line.
    pub(crate) fn clue(&self, line: usize) -> &LineClue
        requires { line < lines_of self.now.pattern.size }
        ensures { numbers_in result.now ≡ clue_of self.now.pattern line }
    {
        &self.clues[line]
    }

    /// Whether the line may strike anything from the board that a search starts from.
    pub(crate) fn may_strike(&self, line: usize) -> bool
        requires { line < lines_of self.now.pattern.size }
        ensures { result ≡ false → IsIdleAtStart self.now.pattern line }
    {
        !self.clue(line).is_roomy(line_len(self.size(), line))
    }
}

impl Rules for PatternLines {
    ghost use Rattle.pattern_core.specs.LineLaws.{line_rules-lawful};

    type Scratch = LineScratch;

    const SETTLED: bool = true;

    const MODE: Mode = Mode::Queue;

    ghost system = { λ r. line_rules r.pattern };

    ghost SETTLED = { true };

    ghost MODE = { Queue };

    ghost mode_is = { λ _. refl };

    ghost serves = { λ _ _. Unit {0} };

    ghost lawful = { λ r. line_rules-lawful r.pattern r.extent };

    ghost settled_is = { λ _. refl };

    ghost serves_smaller = { λ had_by need had fits served. tt };

    fn cells(&self) -> usize {
        self.size().cells()
    }

    fn values(&self) -> u8 {
        VALUES
    }

    fn houses(&self) -> usize {
        line_count(self.size())
    }

    fn bound(&self) -> usize {
        self.houses() + self.cells()
    }

    #[tactic(auto, using(grid_core::proofs::RegionLemmas::line_laws))]
    fn scope_len(&self, house: usize) -> usize {
        line_len(self.size(), house)
    }

    fn longest(&self) -> usize {
        usize::from(self.size().w().max(self.size().h()))
    }

    #[tactic(auto, using(grid_core::proofs::RegionLemmas::line_laws))]
    fn scope(&self, house: usize, k: usize) -> usize {
        line_place(self.size(), house, k)
    }

    fn house_at(&self, place: usize, from: usize) -> Option<usize> {
        let w = self.columns();
        let column = place % w;
        if from <= column {
            return Some(column);
        }
        let row = w + place / w;
        if from <= row {
            return Some(row);
        }
        None
    }

    fn start(&self, board: &mut Board) {
        board.fill();
    }

    fn scratch(&self, alloc: Global) -> Result<LineScratch, AllocError> {
        LineScratch::new(alloc)
    }

    fn visit(&self, house: usize, board: &mut Board, scratch: &mut LineScratch) -> bool {
        let places = cells_of_line(self.size(), house);
        let places: &[u32] = &places;
        let mut sets = [0; LONGEST];
        let sets = &mut sets[..places.len()];
        gather(board, places, sets);
        filter_sets(sets, self.clue(house), scratch.rows());
        apply(board, places, sets)
    }

    #[tactic(auto, using(crate::proofs::FaultLemmas::line_tests), unfolding(crate::specs::LineRules::is_pattern_solution))]
    fn accept(&self, _scratch: &mut LineScratch, grid: &Grid) -> bool {
        for line in 0..self.houses() {
            if !self.clue(line).is_met(self.size(), grid, line) {
                return false;
            }
        }
        true
    }
}
