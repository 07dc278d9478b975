//! Which bulbs a cell sees, and how many stand beside it.
#![tactic(auto, using(crate::proofs::LawSets::light_sight_laws))]

ghost use Rattle.std.specs.Prelude.{◌<◌, ◌≡◌, true};
ghost use Rattle.fields_core.specs.Common.{IsGrid, ShinesInLine, bulbs_beside, light_cells, sees_bulb, whites_of};

use crate::count::house::{count_passing, next_passing};
use crate::light_up::cells::{columns, is_white};
use crate::light_up::line::WhiteLine;
use gameid_core::LightPuzzle;
use grid_core::Grid;

/// Whether the white cell of number `at` along the line sees a bulb of the line.
fn sees_along(line: &WhiteLine<'_>, grid: &Grid, at: usize) -> bool
    requires fits { IsGrid (light_cells line.now.puzzle.now) 2 grid.now }
    requires at_in { at < line.now.len }
    requires white { whites_of line.now at ≡ true }
    ensures { ShinesInLine line.now grid.now at result }
{
    let (start, end) = line.run(at);
    let is_seen = |other| other != at && grid.get(line.place(other)) == 1;
    next_passing(start, end, is_seen).is_some()
}

/// Whether the cell is white and sees a bulb, a 1 in another cell of its row or column with only white cells between.
pub fn sees_a_bulb(puzzle: &LightPuzzle, grid: &Grid, place: usize) -> bool
    requires fits { IsGrid (light_cells puzzle.now) 2 grid.now }
    requires place_in { place < light_cells puzzle.now }
    ensures { result ≡ sees_bulb puzzle.now grid.now place }
{
    let w = columns(puzzle);
    let (x, y) = (place % w, place / w);
    is_white(puzzle, place)
        && (sees_along(&WhiteLine::row(puzzle, y), grid, x)
            || sees_along(&WhiteLine::column(puzzle, x), grid, y))
}

/// How many bulbs stand beside the cell, in cells that share a side with it. The grid has 1 at a bulb and 0 elsewhere.
pub fn count_beside(puzzle: &LightPuzzle, grid: &Grid, place: usize) -> usize
    requires fits { IsGrid (light_cells puzzle.now) 2 grid.now }
    requires place_in { place < light_cells puzzle.now }
    ensures { result ≡ bulbs_beside puzzle.now grid.now place }
{
    let w = columns(puzzle);
    let is_bulb = |other| grid.get(other) == 1;
    count_passing(puzzle.size(), place % w, place / w, is_bulb)
}
