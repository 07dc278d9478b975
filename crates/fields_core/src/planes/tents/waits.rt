//! Which houses of Tents wait to be visited.

ghost use Rattle.std.specs.Prelude.{◌≡◌};
ghost use Rattle.fields_core.specs.Common.{AreTentsRested, AreTentsSettled, AreTentsWoken, AreWaitingLines, Candidates, HasBoard, IsClosedBut, IsSuited, IsTents, Tents, planes_have, tent_rules, waits_of};

use gameid_core::TentsPuzzle;
use grid_core::{Planes, Touched, Word};

/// Kinds of houses, in the order of a sweep. Those of a kind are visited line by line.
#[derive(Clone, Copy)]
pub(crate) enum Kind {
    /// A column.
    Columns,
    /// A row.
    Rows,
    /// The trees of a row.
    Trees,
    /// The squares of a row and the row below.
    Squares,
}

/// The lines of each kind that wait.
#[derive(Clone, Copy)]
pub struct TentWaits<W> {
    columns: W,
    rows: W,
    trees: W,
    squares: W,
}

impl<W: Word> TentWaits<W> {
    /// At these lines all kinds wait.
    fn at(lines: W) -> TentWaits<W>
        ensures { (kind : Kind) → waits_of W.bits result kind ≡ W.bits lines }
    {
        TentWaits {
            columns: lines,
            rows: lines,
            trees: lines,
            squares: lines,
        }
    }

    /// Everything waits.
    pub(crate) fn all() -> TentWaits<W>
        ensures { (p : Tents) (K : Candidates) → IsSuited p.size W.room
            → AreTentsRested W.bits p result K }
    {
        TentWaits::at(W::all(W::places()))
    }

    /// What waits where a closing begins: what a value counts for that the cell `from` has lost, or all where none is named.
    pub(crate) fn new(planes: &Planes<W>, puzzle: &TentsPuzzle, from: Option<usize>) -> TentWaits<W>
        requires lawful { IsTents puzzle.now }
        requires board { HasBoard (tent_rules puzzle.now) puzzle.now.size W.room planes.now }
        requires closed_but { IsClosedBut (tent_rules puzzle.now) (planes_have planes.now) from }
        ensures { AreTentsRested W.bits puzzle.now result (planes_have planes.now) }
    {
        let Some(place) = from else {
            return TentWaits::all();
        };
        let (y, x) = planes.split(place);
        let none = W::none();
        let no_lines = Touched {
            columns: none,
            rows: none,
        };
        let lines = Touched {
            columns: W::one(x),
            rows: W::one(y),
        };
        if planes.has(place, 1) {
            return TentWaits::at(none).woken(lines, no_lines);
        }
        TentWaits::at(none).woken(no_lines, lines)
    }

    /// Lets lines wait that have lost a value, trees beside which 1 is lost, and squares that have lost 0.
    pub(crate) fn woken(self, zeros: Touched<W>, ones: Touched<W>) -> TentWaits<W>
        ensures { AreTentsWoken W.bits W.room self zeros ones result }
    {
        TentWaits {
            columns: self.columns.either(zeros.columns.either(ones.columns)),
            rows: self.rows.either(zeros.rows.either(ones.rows)),
            trees: self
                .trees
                .either(ones.rows.on().either(ones.rows).either(ones.rows.back())),
            squares: self.squares.either(zeros.rows.either(zeros.rows.back())),
        }
    }

    /// The lines at which houses of this kind wait.
    pub(crate) fn lines(&self, planes: &Planes<W>, kind: Kind) -> W
        ensures { AreWaitingLines W.bits planes.now.size self.now kind result }
    {
        match kind {
            Kind::Columns => self.columns.both(planes.columns()),
            Kind::Rows => self.rows.both(planes.rows()),
            Kind::Trees => self.trees.both(planes.rows()),
            Kind::Squares => self.squares.both(planes.rows()),
        }
    }

    /// The houses of this kind wait no more: they are idle.
    pub(crate) fn settle(&mut self, kind: Kind)
        ensures { AreTentsSettled W.bits kind self.old self.new }
    {
        match kind {
            Kind::Columns => self.columns = W::none(),
            Kind::Rows => self.rows = W::none(),
            Kind::Trees => self.trees = W::none(),
            Kind::Squares => self.squares = W::none(),
        }
    }
}
