//! What is counted of the houses of Tents.

ghost use Rattle.fields_core.specs.Common.{IsMeasured, IsTents, tent_houses};

use crate::count::name::Measured;
use crate::tents::cells::is_tree;
use gameid_core::TentsPuzzle;

/// What is counted of all houses: a grid has a square, and no tree has more cells than that.
pub(crate) fn measure_tents(puzzle: &TentsPuzzle) -> Measured
    ensures lawful { IsTents puzzle.now }
    ensures measured { IsMeasured (tent_houses puzzle.now) result }
{
    let size = puzzle.size();
    let (w, h) = (usize::from(size.w()), usize::from(size.h()));
    let mut houses = w + h + (w - 1) * (h - 1);
    for place in 0..size.cells() {
        houses += usize::from(is_tree(puzzle, place));
    }
    Measured {
        houses,
        longest: w.max(h).max(4),
        unmet: false,
    }
}
