//! Visits of the lines of Tents on planes, one by one.

ghost use Rattle.std.specs.Prelude.{◌<◌, ◌≡◌, ◌≤◌, false};
ghost use Rattle.fields_core.specs.Common.{ArePlanesAlive, AreVisited, HasTouching, column_of_tents, planes_have, lines_beside, number_of, row_of_tents};

use crate::planes::visit::{Part, Parts, visit};
use crate::tents::cells::{column_number, row_number};
use gameid_core::TentsPuzzle;
use grid_core::{Line, Planes, Word};

/// Visits the house of a column.
pub(crate) fn visit_column<W: Word>(planes: &mut Planes<W>, puzzle: &TentsPuzzle, x: u8) -> bool
    requires size { planes.old.size ≡ puzzle.now.size }
    requires x_in { x < puzzle.now.size.w }
    requires alive { ArePlanesAlive planes.old }
    ensures { AreVisited (column_of_tents puzzle.now x) planes.old planes.new result }
{
    let first = Part {
        line: Line::Column(x),
        cells: planes.rows(),
    };
    let parts = Parts {
        first,
        second: None,
    };
    let tents = usize::from(column_number(puzzle, usize::from(x)));
    visit(planes, &parts, tents, tents)
}

/// Visits the house of a row.
pub(crate) fn visit_row<W: Word>(planes: &mut Planes<W>, puzzle: &TentsPuzzle, y: u8) -> bool
    requires size { planes.old.size ≡ puzzle.now.size }
    requires narrow { puzzle.now.size.w ≤ W.room }
    requires y_in { y < puzzle.now.size.h }
    requires alive { ArePlanesAlive planes.old }
    ensures { AreVisited (row_of_tents puzzle.now y) planes.old planes.new result }
{
    let first = Part {
        line: Line::Row(y),
        cells: W::all(W::places()),
    };
    let parts = Parts {
        first,
        second: None,
    };
    let tents = usize::from(row_number(puzzle, usize::from(y)));
    visit(planes, &parts, tents, tents)
}

/// Whether no two cells beside each other in a line must have a tent. On small grids it isn't looked at.
#[inline(always)]
pub(crate) fn are_apart<W: Word>(planes: &Planes<W>, line: Line) -> bool
    requires line_in { number_of line < lines_beside planes.now.size line }
    ensures { result ≡ false → HasTouching planes.now.size (planes_have planes.now) }
{
    if planes.size().w() <= 8 {
        return true;
    }
    let must = planes.line(line, 1).but(planes.line(line, 0));
    !must.both(must.on()).is_some()
}
