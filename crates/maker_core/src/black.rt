//! Black cells, drawn one by one.

ghost use Rattle.std.specs.Prelude.{◌≡◌, IfOk};
ghost use Rattle.grid_core.specs.Grids.{IsGrid};
ghost use Rattle.maker_core.specs.Draws.{AreAll, IsDrawnBy, black_cells};

use crate::draws::draw;
use grid_core::Grid;
use rand_core::Rng;
use std::alloc::{AllocError, Global};

/// A grid of so many cells, by place: 1 for a black cell, if a draw below 100 is less than `black`, and else 0.
pub(crate) fn draw_black<G: Rng>(
    alloc: Global,
    rng: &mut G,
    cells: usize,
    black: u8,
) -> Result<Grid, AllocError>
    ensures drawn { IfOk result (IsDrawnBy (black_cells black cells) G.stream rng.old rng.new) }
    ensures grid { IfOk result (λ grid. IsGrid cells 2 grid) }
    ensures white { black ≡ 0 → IfOk result (AreAll 0) }
    ensures full { black ≡ 100 → IfOk result (AreAll 1) }
{
    let mut grid = Grid::new(alloc, cells)?;
    for place in 0..cells {
        let is_black = draw(rng, 100) < u32::from(black);
        grid.set(place, u8::from(is_black));
    }
    Ok(grid)
}
