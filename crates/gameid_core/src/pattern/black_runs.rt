//! The black runs of a line.

ghost use Rattle.std.specs.Prelude.{◌≡◌, ◌<◌, ◌*◌, ◌++◌, length, OnOk, IfOk};
ghost use Rattle.gameid_core.specs.Common.{IsExtent, line_numbers, lines_of, lines_runs, run_of, runs};
ghost use Rattle.gameid_core.specs.PatternText.{with_more};

use crate::pattern::clues::Clues;
use grid_core::{Grid, Size, line_count, line_len, line_value};
use std::alloc::{AllocError, Global};

/// Adds a run of so many cells, unless there are none.
fn push_run_of(clues: &mut Clues, count: u8) -> Result<(), AllocError>
    ensures { OnOk result (clues.new ≡ with_more clues.old (run_of count)) }
{
    if count > 0 {
        clues.push(count)?;
    }
    Ok(())
}

/// Adds the lengths of the maximal black runs of a line, whose cells are 0 for white and anything
/// else for black.
#[tactic(auto, using(crate::proofs::LineLaws::turns), unfolding(crate::specs::Lines::runs_after))]
fn push_runs(clues: &mut Clues, size: Size, grid: &Grid, line: usize) -> Result<(), AllocError>
    requires cells { length grid.now ≡ size.w * size.h }
    requires line { line < lines_of size }
    ensures { OnOk result (clues.new
        ≡ with_more clues.old (runs (line_numbers size grid.now line))) }
{
    let mut count = 0;
    for k in 0..line_len(size, line) {
        if line_value(size, grid, line, k) == 0 {
            push_run_of(clues, count)?;
            count = 0;
            continue;
        }
        count += 1;
    }
    push_run_of(clues, count)
}

/// The runs of each line of a grid, columns from the left and then rows from the top.
#[tactic(auto, using(crate::proofs::LineLaws::turns))]
pub(crate) fn runs_of_lines(alloc: Global, size: Size, grid: &Grid) -> Result<Clues, AllocError>
    requires { length grid.now ≡ size.w * size.h }
    ensures runs { IfOk result (λ c. c.clues ≡ lines_runs size grid.now) }
    ensures lawful { IsExtent size }
{
    let lines = line_count(size);
    let mut clues = Clues::new(alloc, lines, size.cells() + lines / 2)?;
    for line in 0..lines {
        push_runs(&mut clues, size, grid, line)?;
        clues.end()?;
    }
    Ok(clues)
}
