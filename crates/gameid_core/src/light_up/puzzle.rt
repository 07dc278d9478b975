//! The puzzles of Light Up.

ghost use Rattle.std.specs.Prelude.{◌≡◌, ◌<◌, ◌≤◌, ◌*◌, length, replicate, slice_get, slice_set, Some, IfOk};
ghost use Rattle.gameid_core.specs.Puzzles.{IsLight, IsLightCell, Light};
ghost use Rattle.gameid_core.specs.declared.light_up.cell.LightCell.TheVariants.{White};

use crate::light_up::cell::LightCell;
use grid_core::{Fixed, Size};
use std::alloc::{AllocError, Global};
use std::marker::Model;

/// The cells of a grid of at least 2 columns and 2 rows, each white, black or black with a number
/// from 0 to 4.
#[derive(Debug, Drop)]
pub struct LightPuzzle {
    pub(crate) size: Size,
    pub(crate) cells: Fixed<LightCell>,
}

impl Model for LightPuzzle {
    ghost use Rattle.gameid_core.specs.Puzzles.{Light, IsLight};

    ghost Value = { Light };

    ghost view = { λ p. record { size = p.size; cells = p.cells.items } };

    ghost invariant = { λ p. IsLight (record { size = p.size; cells = p.cells.items }) };
}

impl LightPuzzle {
    /// The puzzle of that size with white cells alone.
    pub fn blank(alloc: Global, size: Size) -> Result<LightPuzzle, AllocError>
        requires w_two { 2 ≤ size.w }
        requires h_two { 2 ≤ size.h }
        ensures { IfOk result (λ p. p
            ≡ record { size = size; cells = replicate (size.w * size.h) White }) }
    {
        let cells = Fixed::copies(alloc, LightCell::White, size.cells())?;
        Ok(LightPuzzle { size, cells })
    }

    /// A copy of the puzzle.
    pub fn copy(&self, alloc: Global) -> Result<LightPuzzle, AllocError>
        ensures { IfOk result (λ p. p ≡ self.now) }
    {
        Ok(LightPuzzle {
            size: self.size,
            cells: Fixed::of(self.cells().to_vec(alloc)?),
        })
    }

    /// The size of the grid.
    pub fn size(&self) -> Size
        ensures value { result ≡ self.now.size }
        ensures lawful { IsLight self.now }
    {
        self.size
    }

    /// The cell at a place. Places go row by row from the top left.
    pub fn cell(&self, place: usize) -> LightCell
        requires { IsLight self.now → place < length self.now.cells }
        ensures value { slice_get self.now.cells place ≡ Some result }
        ensures range { IsLightCell result }
        ensures lawful { IsLight self.now }
    {
        self.cells[place]
    }

    /// Changes a cell. Every other cell stays as it is.
    pub fn set_cell(&mut self, place: usize, cell: LightCell)
        requires place { place < length self.old.cells }
        requires cell { IsLightCell cell }
        ensures { self.new ≡ record self.old { cells = slice_set self.old.cells place cell } }
    {
        self.cells[place] = cell;
    }

    /// The cells by place.
    pub(crate) fn cells(&self) -> &[LightCell]
        ensures value { result.now ≡ self.now.cells }
        ensures lawful { IsLight self.now }
    {
        &self.cells
    }
}
