//! Square grids turned over.

ghost use Rattle.std.specs.Prelude.{◌≡◌, ◌*◌, ◌<◌, ◌≤◌, length, slice_index, IfOk};
ghost use Rattle.gameid_core.specs.Head.{max_numbers};
ghost use Rattle.maker_core.specs.SoloFilling.{line_from, flipped};

use grid_core::Grid;
use std::alloc::{AllocError, Global};

/// A grid of `n` columns and `n` rows, flipped left to right if `across`, and top to bottom if `down`.
#[tactic(auto, using(crate::proofs::SoloXSearch::flip_laws))]
pub(crate) fn flip(
    alloc: Global,
    n: usize,
    grid: &Grid,
    across: bool,
    down: bool,
) -> Result<Grid, AllocError>
    requires few { n ≤ max_numbers }
    requires cells { length grid.now ≡ n * n }
    ensures { IfOk result (λ turned. turned ≡ flipped n across down grid.now) }
{
    let mut turned = Grid::new(alloc, grid.len())?;
    for place in 0..grid.len() {
        turned.set(place, number_at(n, grid, across, down, place));
    }
    Ok(turned)
}

/// The number that comes to a place.
#[tactic(auto, using(crate::proofs::SoloXSearch::flip_laws))]
fn number_at(n: usize, grid: &Grid, across: bool, down: bool, place: usize) -> u8
    requires few { n ≤ max_numbers }
    requires cells { length grid.now ≡ n * n }
    requires place { place < n * n }
    ensures { result ≡ slice_index (flipped n across down grid.now) place }
{
    let x = line_from(across, n, place % n);
    let y = line_from(down, n, place / n);
    grid.get(y * n + x)
}

/// The line that comes to a line of `n`: itself, or if they are flipped the one as far from the other end.
fn line_from(flips: bool, n: usize, line: usize) -> usize
    requires { line < n }
    ensures { result ≡ line_from flips n line }
{
    if flips { n - 1 - line } else { line }
}
