//! How many cells of each line are 1.

ghost use Rattle.std.specs.Prelude.{◌≡◌, ◌<◌, ◌*◌, length, IfOk};
ghost use Rattle.gameid_core.specs.Common.{IsExtent, line_numbers, lines_of, lines_ones, ones};

use grid_core::{Grid, Size, line_count, line_len, line_value};
use std::alloc::{AllocError, Global};

/// How many cells of a line are 1.
#[tactic(auto, using(crate::proofs::LineLaws::turns))]
fn ones_of(size: Size, grid: &Grid, line: usize) -> u8
    requires cells { length grid.now ≡ size.w * size.h }
    requires line { line < lines_of size }
    ensures { result ≡ ones (line_numbers size grid.now line) }
{
    let mut count = 0;
    for k in 0..line_len(size, line) {
        if line_value(size, grid, line, k) == 1 {
            count += 1;
        }
    }
    count
}

/// How many cells of each line of a grid are 1, columns from the left and then rows from the top.
#[tactic(auto, using(crate::proofs::LineLaws::turns))]
pub(crate) fn ones_of_lines(alloc: Global, size: Size, grid: &Grid) -> Result<Vec<u8>, AllocError>
    requires { length grid.now ≡ size.w * size.h }
    ensures ones { IfOk result (λ v. v.items ≡ lines_ones size grid.now) }
    ensures lawful { IsExtent size }
{
    let lines = line_count(size);
    let mut counts = Vec::with_capacity(alloc, lines)?;
    for line in 0..lines {
        counts.push(ones_of(size, grid, line))?;
    }
    Ok(counts)
}

/// The numbers of a grid by place.
pub(crate) fn numbers_of(alloc: Global, grid: &Grid) -> Result<Vec<u8>, AllocError>
    ensures { IfOk result (λ v. v.items ≡ grid.now) }
{
    let mut numbers = Vec::with_capacity(alloc, grid.len())?;
    for place in 0..grid.len() {
        numbers.push(grid.get(place))?;
    }
    Ok(numbers)
}
