//! Puzzles whose grids can be printed.
ghost use Rattle.std.specs.Prelude.{◌≡◌, ◌+◌, ◌*◌, ◌<◌, ◌≤◌, ◌++◌, ℕ, List, length};
ghost use Rattle.gameid_core.specs.Common.{Extent, IsExtent, IsGrid};
ghost use Rattle.gameid_core.specs.Waiting.{piece_room};

use crate::text::piece::Piece;
use grid_core::{Grid, Size};

/// A puzzle whose grids can be printed. A grid has a number for each cell, by place. What the numbers
/// mean, and what is printed of them, stands with each game.
pub trait Printed {
    // The columns and rows of its grids.
    ghost extent: { Self → Extent };

    // How many values a cell of its grids may have.
    ghost value_count: { Self → ℕ };

    // What is printed of the grid at a place.
    ghost cell_text: { Self → List ℕ → ℕ → List ℕ };

    /// How many columns and rows its grids have.
    fn grid_size(&self) -> Size
        ensures { result ≡ extent self.now };

    /// How many columns its grids have, from 1 to 120.
    fn columns(&self) -> usize
        ensures value { result ≡ (extent self.now).w }
        ensures lawful { IsExtent (extent self.now) }
    {
        usize::from(self.grid_size().w())
    }

    /// How many rows its grids have, from 1 to 120.
    fn rows(&self) -> usize
        ensures value { result ≡ (extent self.now).h }
        ensures lawful { IsExtent (extent self.now) }
    {
        usize::from(self.grid_size().h())
    }

    /// Adds what is printed of the grid at a place: three bytes at most.
    fn push_cell(&self, piece: &mut Piece, grid: &Grid, place: usize)
        requires grid { IsGrid ((extent self.now).w * (extent self.now).h)
            (value_count self.now) grid.now }
        requires place { place < length grid.now }
        requires room { length piece.old + 3 ≤ piece_room }
        ensures { piece.new ≡ piece.old ++ cell_text self.now grid.now place };
}
