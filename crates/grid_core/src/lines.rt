//! The lines of a grid: the columns from the left, and then the rows from the top.
#![tactic(auto, using(crate::proofs::RegionLemmas::line_laws))]

ghost use Rattle.std.specs.Prelude.{◌≡◌, ◌*◌, ◌<◌, ◌≤◌, length, slice_index};
ghost use Rattle.grid_core.specs.Candidates.{max_cells};
ghost use Rattle.grid_core.specs.Extent.{IsExtent, max_side};
ghost use Rattle.grid_core.specs.Lines.{line_cells, line_numbers, line_places, lines_of};

use crate::grid::Grid;
use crate::regions::{column_place, row_place};
use crate::size::Size;

/// How many lines there are.
pub fn line_count(size: Size) -> usize
    ensures value { result ≡ lines_of size }
    ensures lawful { IsExtent size }
{
    usize::from(size.w()) + usize::from(size.h())
}

/// How many cells the line has.
pub fn line_len(size: Size, line: usize) -> usize
    ensures cells { result ≡ line_cells size line }
    ensures short { result ≤ max_side }
{
    if line < usize::from(size.w()) {
        usize::from(size.h())
    } else {
        usize::from(size.w())
    }
}

/// The place of the `k`-th cell of the line, from the top or from the left.
pub fn line_place(size: Size, line: usize, k: usize) -> usize
    requires line_in { line < lines_of size }
    requires k_in { k < line_cells size line }
    ensures place { result ≡ slice_index (line_places size line) k }
    ensures within { result < size.w * size.h }
    ensures small { result < max_cells }
{
    let w = usize::from(size.w());
    if line < w {
        column_place(size, line, k)
    } else {
        row_place(size, line - w, k)
    }
}

/// The number in the `k`-th cell of the line.
pub fn line_value(size: Size, grid: &Grid, line: usize, k: usize) -> u8
    requires cells { length grid.now ≡ size.w * size.h }
    requires line_in { line < lines_of size }
    requires k_in { k < line_cells size line }
    ensures { result ≡ slice_index (line_numbers size grid.now line) k }
{
    grid.get(line_place(size, line, k))
}
