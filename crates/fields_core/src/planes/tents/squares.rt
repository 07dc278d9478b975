//! Visits of the squares of two rows of Tents, all at once.

ghost use Rattle.std.specs.Prelude.{◌<◌, ◌≡◌};
ghost use Rattle.fields_core.specs.Common.{ArePlanesAlive, AreVisited, squares_of_row};

use gameid_core::TentsPuzzle;
use grid_core::{Line, Planes, Word};

/// Visits the houses of the squares whose upper row is `y`. Beside a cell that must have a tent, or above or below one, no
/// undecided cell of the two rows can have one. Says whether no two such cells are in a square: if two are, nothing is taken.
pub(crate) fn visit_squares<W: Word>(planes: &mut Planes<W>, puzzle: &TentsPuzzle, y: u8) -> bool
    requires size { planes.old.size ≡ puzzle.now.size }
    requires y_in { y < puzzle.now.size.h }
    requires alive { ArePlanesAlive planes.old }
    ensures { AreVisited (squares_of_row puzzle.now y) planes.old planes.new result }
{
    let size = puzzle.size();
    if size.w() < 2 || y + 1 >= size.h() {
        return true;
    }
    let (upper, lower) = (planes.row(y, 0), planes.row(y + 1, 0));
    let all = planes.columns();
    let twice = all.but(upper.either(lower));
    let must = all.but(upper.both(lower));
    let after = must.on();
    if twice.is_some() || must.both(after).is_some() {
        return false;
    }
    let near = must.either(after).either(must.back());
    planes.take(Line::Row(y), 1, near.both(upper));
    planes.take(Line::Row(y + 1), 1, near.both(lower));
    true
}
