//! Cells that share a side or a corner.
#![tactic(auto, using(crate::proofs::LawSets::tent_touch_laws))]

ghost use Rattle.std.specs.Prelude.{◌%◌, ◌&&◌, ◌*◌, ◌<◌, ◌≡◌, ◌≤◌, length};
ghost use Rattle.fields_core.specs.Common.{IsGrid, IsTentAmong, IsWindow, any_below, tent, touches};

use crate::count::house::next_passing;
use grid_core::{Grid, Size};

/// Whether a cell other than `place` has a tent, of those from `from` to the one before `end`.
fn has_tent_among(grid: &Grid, place: usize, from: usize, end: usize) -> bool
    requires { end ≤ length grid.now }
    ensures { IsTentAmong grid.now place from end result }
{
    next_passing(from, end, |other| other != place && grid.get(other) == 1).is_some()
}

/// The cells of the place's row that are at most one column from it: the first, and the one after the last.
fn window(size: Size, place: usize) -> (usize, usize)
    requires { place < size.w * size.h }
    ensures window { IsWindow size.w place result.0 result.1 }
    ensures within { result.1 ≤ size.w * size.h }
{
    let w = usize::from(size.w());
    let column = place % w;
    let first = if column > 0 { place - 1 } else { place };
    if column + 1 < w {
        return (first, place + 2);
    }
    (first, place + 1)
}

/// Whether the cell shares a side or a corner with another cell that has a tent. The grid has 1 at a tent and 0 elsewhere.
pub fn touches_tent(size: Size, grid: &Grid, place: usize) -> bool
    requires fits { IsGrid (size.w * size.h) 2 grid.now }
    requires place_in { place < size.w * size.h }
    ensures { result ≡ any_below (λ d. touches size place d && tent grid.now d) (size.w * size.h) }
{
    let w = usize::from(size.w());
    let (first, end) = window(size, place);
    let last = size.cells().min(end + w);
    has_tent_among(grid, place, first, end)
        || has_tent_among(grid, place, first.saturating_sub(w), end.saturating_sub(w))
        || has_tent_among(grid, place, first + w, last)
}
