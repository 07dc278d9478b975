//! Which lines wait to be visited.

ghost use Rattle.std.specs.Prelude.{◌&&◌, ◌<◌, ◌||◌, ◌≡◌, false, not};
ghost use Rattle.grid_core.specs.Planes.{number_of};
ghost use Rattle.pattern_core.specs.LinePlanes.{AreLinesMarked, IsNextLine, crossed_by, is_marked, is_same};

use grid_core::{Line, Word};

/// The columns and the rows that wait.
#[derive(Clone, Copy)]
pub(crate) struct LinesWaiting<W> {
    columns: W,
    rows: W,
}

impl<W: Word> LinesWaiting<W> {
    /// No line waits.
    pub(crate) fn none() -> LinesWaiting<W>
        ensures { (line : Line) → is_marked W.bits result line ≡ false }
    {
        LinesWaiting {
            columns: W::none(),
            rows: W::none(),
        }
    }

    /// The line waits too.
    pub(crate) fn with(self, line: Line) -> LinesWaiting<W>
        requires { number_of line < W.room }
        ensures { AreLinesMarked W.bits self (is_same line) result }
    {
        match line {
            Line::Column(x) => LinesWaiting {
                columns: self.columns.either(W::one(usize::from(x))),
                rows: self.rows,
            },
            Line::Row(y) => LinesWaiting {
                columns: self.columns,
                rows: self.rows.either(W::one(usize::from(y))),
            },
        }
    }

    /// The line waits no more, and the lines that cross it at these cells wait too.
    pub(crate) fn with_crossing(self, line: Line, cells: W) -> LinesWaiting<W>
        requires { number_of line < W.room }
        ensures { (other : Line) → is_marked W.bits result other
            ≡ ((is_marked W.bits self other && not (is_same line other))
            || crossed_by line (W.bits cells) other) }
    {
        match line {
            Line::Column(x) => LinesWaiting {
                columns: self.columns.but(W::one(usize::from(x))),
                rows: self.rows.either(cells),
            },
            Line::Row(y) => LinesWaiting {
                columns: self.columns.either(cells),
                rows: self.rows.but(W::one(usize::from(y))),
            },
        }
    }

    /// A line that waits, if there is one: a row where rows are gone through and one waits, else a column where one waits.
    pub(crate) fn next(self, in_rows: bool) -> Option<Line>
        ensures { IsNextLine W.room W.bits self result }
    {
        let _places = W::places(); // so few that the cast keeps each number
        let (has_columns, has_rows) = (self.columns.is_some(), self.rows.is_some());
        if has_rows & (in_rows | !has_columns) {
            Some(Line::Row(self.rows.lowest() as u8))
        } else if has_columns {
            Some(Line::Column(self.columns.lowest() as u8))
        } else {
            None
        }
    }
}
