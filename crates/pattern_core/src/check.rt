//! The check of a grid.

ghost use Rattle.std.specs.Prelude.{◌*◌, ◌↔◌, ◌≡◌, None};
ghost use Rattle.grid_core.specs.Grids.{IsGrid};
ghost use Rattle.pattern_core.specs.Solutions.{IsPatternFault, IsPatternSolution};

use crate::fault::PatternFault;
use crate::line_clue::LineClue;
use gameid_core::PatternPuzzle;
use grid_core::{Grid, line_count};

/// The first line whose black runs aren't its clue, the columns from the left before the rows from the top; `None`
/// where the grid is a solution. The grid has a number below 2 for each cell: 0 for white and 1 for black.
///
/// The rule is that of the manual of Simon Tatham's Portable Puzzle Collection, "Pattern": the numbers beside a line
/// are the lengths of its runs of consecutive black squares, in order.
pub fn check_pattern(puzzle: &PatternPuzzle, grid: &Grid) -> Option<PatternFault>
    requires { IsGrid (puzzle.now.size.w * puzzle.now.size.h) 2 grid.now }
    ensures fault { IsPatternFault puzzle.now grid.now result }
    ensures solution { (result ≡ None) ↔ IsPatternSolution puzzle.now grid.now }
{
    first_fault(puzzle, grid)
}

/// The same, without what it says of solutions.
#[tactic(auto, using(crate::proofs::FaultLemmas::fault_laws))]
fn first_fault(puzzle: &PatternPuzzle, grid: &Grid) -> Option<PatternFault>
    requires { IsGrid (puzzle.now.size.w * puzzle.now.size.h) 2 grid.now }
    ensures { IsPatternFault puzzle.now grid.now result }
{
    let size = puzzle.size();
    let w = usize::from(size.w());
    for line in 0..line_count(size) {
        if LineClue::new(puzzle, line).is_met(size, grid, line) {
            continue;
        }
        if line < w {
            return Some(PatternFault::Column(line));
        }
        return Some(PatternFault::Row(line - w));
    }
    None
}
