//! White cells, and the lines of a puzzle of Light Up.
#![tactic(auto, using(crate::proofs::LawSets::light_cells_laws))]

ghost use Rattle.std.specs.Prelude.{◌<◌, ◌≡◌};
ghost use Rattle.fields_core.specs.Common.{IsLight, light_cells, white};

use gameid_core::{LightCell, LightPuzzle};
use grid_core::MAX_SIDE;

/// The most cells of a row or a column.
pub(crate) const LONGEST: usize = MAX_SIDE as usize;

/// Whether the cell is white.
pub fn is_white(puzzle: &LightPuzzle, place: usize) -> bool
    requires { place < light_cells puzzle.now }
    ensures value { result ≡ white puzzle.now place }
    ensures lawful { IsLight puzzle.now }
{
    matches!(puzzle.cell(place), LightCell::White)
}

/// The number of columns.
pub(crate) fn columns(puzzle: &LightPuzzle) -> usize
    ensures value { result ≡ puzzle.now.size.w }
    ensures lawful { IsLight puzzle.now }
{
    usize::from(puzzle.size().w())
}

/// The number of rows.
pub(crate) fn rows(puzzle: &LightPuzzle) -> usize
    ensures { result ≡ puzzle.now.size.h }
{
    usize::from(puzzle.size().h())
}
