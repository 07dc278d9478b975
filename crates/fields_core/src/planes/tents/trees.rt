//! The trees of each row of Tents as words, and visits of those of a row, all at once.

ghost use Rattle.std.specs.Prelude.{◌<◌, ◌≤◌, length, map, not};
ghost use Rattle.fields_core.specs.Common.{ArePlanesAlive, AreTakenBeside, AreTreesVisited, IsFurther, IsRowIn, Tents, tree};

use crate::planes::tents::three_rows::{ThreeRows, ones_near};
use crate::tents::cells::{is_tree, place_of};
use gameid_core::TentsPuzzle;
use grid_core::{Line, Planes, Word};

/// The trees of a row, and its other cells: none past the last row.
pub(crate) fn cells_of_row<W: Word>(puzzle: &TentsPuzzle, y: usize) -> (W, W)
    requires narrow { puzzle.now.size.w ≤ W.room }
    ensures trees { IsRowIn puzzle.now.size (tree puzzle.now) y (W.bits result.0) }
    ensures others { IsRowIn puzzle.now.size (λ c. not (tree puzzle.now c)) y (W.bits result.1) }
{
    let size = puzzle.size();
    let mut trees = W::none();
    if y >= usize::from(size.h()) {
        return (trees, trees);
    }
    let w = usize::from(size.w());
    for x in 0..w {
        if is_tree(puzzle, place_of(puzzle, x, y)) {
            trees = trees.either(W::one(x));
        }
    }
    (trees, W::all(w).but(trees))
}

/// Takes 0 from those of the cells that are beside one of these places of the row.
fn take_beside<W: Word>(planes: &mut Planes<W>, near: ThreeRows<W>, places: W, y: u8)
    requires y_in { y < planes.old.size.h }
    ensures left { AreTakenBeside W.bits near places y planes.old planes.new }
    ensures further { IsFurther planes.old planes.new }
{
    let last = planes.size().h() - 1;
    let across = places.on().either(places.back());
    planes.take(Line::Row(y.saturating_sub(1)), 0, near.above.both(places));
    planes.take(Line::Row(y), 0, near.own.both(across));
    planes.take(
        Line::Row(y.saturating_add(1).min(last)),
        0,
        near.below.both(places),
    );
}

/// Visits the houses of the trees of a row. A tree with one cell beside it that can have a tent takes 0 from it: there is
/// no other for its tent. Says whether no tree with a free cell beside it is left without one that can have a tent: if
/// there is one, nothing is taken. The words are the trees of each row with a free cell beside them.
pub(crate) fn visit_trees<W: Word>(planes: &mut Planes<W>, trees: &[W], y: u8) -> bool
    requires y_in { y < planes.old.size.h }
    requires long { planes.old.size.h ≤ length trees.now }
    requires alive { ArePlanesAlive planes.old }
    ensures { AreTreesVisited W.room (map W.bits trees.now) y planes.old planes.new result }
{
    let ones = ones_near(planes, y);
    let own = trees[usize::from(y)];
    if own.but(ones.some()).is_some() {
        return false;
    }
    take_beside(planes, ones, own.both(ones.just_one()), y);
    true
}
