//! Printed grids. Their form is this project's own.
#![tactic(auto, using(crate::proofs::LineLaws::pushes))]

ghost use Rattle.std.specs.Prelude.{◌≡◌, ◌*◌, ◌++◌, OnOk, string_bytes};
ghost use Rattle.gameid_core.specs.Common.{Adds};
ghost use Rattle.gameid_core.specs.PrintedForm.{IsGridIn, printed_grid};

use crate::grids::printed::Printed;
use crate::text::piece::Piece;
use grid_core::Grid;
use std::alloc::AllocError;

/// Adds a grid of the puzzle to a text: its rows from the top, the cells of each from the left, and
/// a line end after each row. The grid has a number for each cell, by place.
pub fn push_grid<P: Printed>(text: &mut String, puzzle: &P, grid: &Grid) -> Result<(), AllocError>
    requires { IsGridIn P.Printed puzzle.now grid.now }
    ensures { OnOk result (Adds (printed_grid P.Printed puzzle.now grid.now) text.old text.new) }
{
    let size = puzzle.grid_size();
    let w = usize::from(size.w());
    let mut piece = Piece::new();
    for y in 0..usize::from(size.h()) {
        for x in 0..w {
            piece.make_room(text)?;
            puzzle.push_cell(&mut piece, grid, y * w + x);
        }
        piece.make_room(text)?;
        piece.push(b'\n');
    }
    piece.flush(text)
}
