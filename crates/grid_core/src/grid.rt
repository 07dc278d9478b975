//! A number for each cell.

ghost use Rattle.std.specs.Prelude.{◌≡◌, ◌<◌, ◌↔◌, IsTrue, IfOk, length, slice_index, slice_set, replicate};
ghost use Rattle.grid_core.specs.Grids.{IsGrid};

use crate::fixed::Fixed;
use std::alloc::{AllocError, Global};
use std::marker::Model;

/// A number for each cell, by place: row by row from the top left.
#[derive(Debug, Drop)]
pub struct Grid {
    cells: Fixed<u8>,
}

impl Model for Grid {
    ghost use Rattle.std.specs.Prelude.{List, ℕ};

    ghost Value = { List ℕ };

    ghost view = { λ g. g.cells.items };
}

impl Grid {
    /// A grid of that many cells, all zero.
    pub fn new(alloc: Global, cells: usize) -> Result<Grid, AllocError>
        ensures { IfOk result (λ g. g ≡ replicate cells 0) }
    {
        Ok(Grid {
            cells: Fixed::copies(alloc, 0, cells)?,
        })
    }

    /// How many cells there are.
    pub fn len(&self) -> usize
        ensures { result ≡ length self.now }
    {
        self.cells.len()
    }

    /// The number in the cell.
    pub fn get(&self, place: usize) -> u8
        requires { place < length self.now }
        ensures { result ≡ slice_index self.now place }
    {
        self.cells[place]
    }

    /// Writes the number into the cell.
    pub fn set(&mut self, place: usize, value: u8)
        requires { place < length self.old }
        ensures { self.new ≡ slice_set self.old place value }
    {
        self.cells[place] = value;
    }

    /// Whether there are that many cells, and each number is below `values`.
    pub fn fits(&self, cells: usize, values: u8) -> bool
        ensures { IsTrue result ↔ IsGrid cells values self.now }
    {
        self.len() == cells && self.cells.iter().all(|value| *value < values)
    }
}
