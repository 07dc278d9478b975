//! The houses of Light Up, by what tells them.

ghost use Rattle.std.specs.Prelude.{◌*◌, ◌+◌, ◌<◌, ◌∷◌, ◌≡◌, [], length, true};
ghost use Rattle.fields_core.specs.Common.{house_along, house_told, lit_house, number_house, white};

use crate::count::house::{House, Segment, segments_beside};
use crate::light_up::cells::is_white;
use crate::light_up::line::WhiteLine;
use gameid_core::{LightCell, LightPuzzle};

/// The kinds of houses of Light Up, told by the place of the number, of the run's first cell, or of the white cell.
#[derive(Clone, Copy)]
pub enum LightHouse {
    /// The white cells beside a number.
    Number,
    /// A run of white cells of a row.
    Row,
    /// A run of white cells of a column.
    Column,
    /// A white cell and the cells that it sees.
    Lit,
}

/// The house of the cell's number.
pub(crate) fn number_told(puzzle: &LightPuzzle, place: usize) -> House
    requires { length (number_house puzzle.now place) ≡ 1 }
    ensures { number_house puzzle.now place ≡ house_told result ∷ [] }
{
    let ones = match puzzle.cell(place) {
        LightCell::Numbered(n) => n,
        _ => 0,
    };
    let cells = segments_beside(puzzle.size(), place, |other| is_white(puzzle, other));
    House::exactly(ones, cells)
}

/// The house of the run that begins at the cell of number `at` along a line.
pub(crate) fn run_told(line: &WhiteLine<'_>, at: usize) -> House
    requires at_in { at < line.now.len }
    requires begins { length (house_along line.now at) ≡ 1 }
    ensures { house_along line.now at ≡ house_told result ∷ [] }
{
    House::one_at_most(line.segment(at, line.run_end(at)).alone())
}

/// The house of a white cell: the cell and the cells that it sees.
pub(crate) fn lit_told(puzzle: &LightPuzzle, x: usize, y: usize) -> House
    requires x_in { x < puzzle.now.size.w }
    requires y_in { y < puzzle.now.size.h }
    requires white { white puzzle.now (y * puzzle.now.size.w + x) ≡ true }
    ensures { lit_house puzzle.now (y * puzzle.now.size.w + x) ≡ house_told result ∷ [] }
{
    let (row, column) = (WhiteLine::row(puzzle, y), WhiteLine::column(puzzle, x));
    let (left, right) = row.run(x);
    let (top, end) = column.run(y);
    House::one_at_least([
        row.segment(left, right),
        column.segment(top, y),
        column.segment(y + 1, end),
        Segment::none(),
    ])
}
