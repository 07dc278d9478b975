//! Trees and lines of a puzzle of Tents.

ghost use Rattle.std.specs.Prelude.{◌*◌, ◌+◌, ◌<◌, ◌^◌, ◌≡◌, slice_index};
ghost use Rattle.fields_core.specs.Common.{IsTents, tent_cells, tree};

use gameid_core::TentsPuzzle;

/// Whether a tree stands on the cell.
pub(crate) fn is_tree(puzzle: &TentsPuzzle, place: usize) -> bool
    requires { place < tent_cells puzzle.now }
    ensures { result ≡ tree puzzle.now place }
{
    puzzle.tree(place)
}

/// The number of tents that the column is to have.
pub(crate) fn column_number(puzzle: &TentsPuzzle, x: usize) -> u8
    requires { x < puzzle.now.size.w }
    ensures value { result ≡ slice_index puzzle.now.counts x }
    ensures lawful { IsTents puzzle.now }
{
    puzzle.count(x)
}

/// The number of tents that the row is to have.
pub(crate) fn row_number(puzzle: &TentsPuzzle, y: usize) -> u8
    requires { y < puzzle.now.size.h }
    ensures value { result ≡ slice_index puzzle.now.counts (puzzle.now.size.w + y) }
    ensures lawful { IsTents puzzle.now }
{
    let w = usize::from(puzzle.size().w());
    puzzle.count(w + y)
}

/// The place of the cell of that column and row.
pub(crate) fn place_of(puzzle: &TentsPuzzle, x: usize, y: usize) -> usize
    requires x_in { x < puzzle.now.size.w }
    requires y_in { y < puzzle.now.size.h }
    ensures value { result ≡ y * puzzle.now.size.w + x }
    ensures within { result < tent_cells puzzle.now }
    ensures few { result < 2 ^ 16 }
    ensures lawful { IsTents puzzle.now }
{
    y * usize::from(puzzle.size().w()) + x
}
