//! Which numbers, runs and white cells of Light Up wait to be visited.

ghost use Rattle.std.specs.Prelude.{◌≡◌, ◌<◌, ◌≤◌};
ghost use Rattle.fields_core.specs.Common.{AreAlwaysRested, AreLightsRested, AreLightsWoken, AreLightsWokenSince, AreNumbersSettled, ArePlanesOf, AreRunLines, AreLightsSettled, AreSpread, AreThoseMet, IsClosedBut, Light, planes_have, has_bit, light_cells, light_rules, lit_house, run_houses, run_lines, waiting_runs};

use gameid_core::LightPuzzle;
use grid_core::{Planes, Touched, Word};

/// Kinds of runs, in the order of a sweep.
#[derive(Clone, Copy)]
pub(crate) enum RunKind {
    /// Runs along rows.
    Rows,
    /// Runs along columns.
    Columns,
}

impl RunKind {
    /// The lines that there are.
    pub(crate) fn lines<W: Word>(self, planes: &Planes<W>) -> W
        ensures { AreRunLines W.bits planes.now.size self result }
    {
        match self {
            RunKind::Rows => planes.rows(),
            RunKind::Columns => planes.columns(),
        }
    }
}

/// The rows and columns whose runs wait. Of the numbers of a row that waits those wait that stand in one of the columns of
/// numbers. A white cell waits if its house has a cell of both a column and a row of `ones`, in which 1 was lost.
#[derive(Clone, Copy)]
pub struct LightWaits<W> {
    pub(crate) numbers: W,
    pub(crate) number_columns: W,
    rows: W,
    columns: W,
    pub(crate) ones: Touched<W>,
}

/// The columns and the rows at these places.
fn lines<W: Word>(at: W) -> Touched<W>
    ensures columns { result.columns ≡ at }
    ensures rows { result.rows ≡ at }
{
    Touched {
        columns: at,
        rows: at,
    }
}

/// Places of the first word, and those of these lines and beside them.
#[inline(always)]
fn spread<W: Word>(before: W, lines: W) -> W
    ensures { AreSpread W.bits W.room before (has_bit (W.bits lines)) result }
{
    before.either(lines.on().either(lines).either(lines.back()))
}

impl<W: Word> LightWaits<W> {
    /// At these columns and rows everything waits.
    fn at(places: W) -> LightWaits<W>
        ensures numbers { result.numbers ≡ places }
        ensures number_columns { result.number_columns ≡ places }
        ensures rows { result.rows ≡ places }
        ensures columns { result.columns ≡ places }
        ensures one_rows { result.ones.rows ≡ places }
        ensures one_columns { result.ones.columns ≡ places }
    {
        LightWaits {
            numbers: places,
            number_columns: places,
            rows: places,
            columns: places,
            ones: lines(places),
        }
    }

    /// Everything waits.
    pub(crate) fn all() -> LightWaits<W>
        ensures { AreAlwaysRested W.bits W.room result }
    {
        LightWaits::at(W::all(W::places()))
    }

    /// What waits too once cells of both a column and a row of these have lost 0, and cells of those 1. While no cell of
    /// theirs loses 0, runs stay idle, and while none loses 1, white cells do.
    pub(crate) fn woken(self, zeros: Touched<W>, ones: Touched<W>) -> LightWaits<W>
        ensures { AreLightsWoken W.bits W.room self zeros ones result }
    {
        LightWaits {
            numbers: spread(self.numbers, zeros.rows.either(ones.rows)),
            number_columns: spread(self.number_columns, zeros.columns.either(ones.columns)),
            rows: self.rows.either(zeros.rows),
            columns: self.columns.either(zeros.columns),
            ones: Touched {
                columns: self.ones.columns.either(ones.columns),
                rows: self.ones.rows.either(ones.rows),
            },
        }
    }

    /// The lines whose runs of this kind wait.
    pub(crate) fn runs(&self, kind: RunKind) -> W
        ensures { W.bits result ≡ waiting_runs W.bits self.now kind }
    {
        match kind {
            RunKind::Rows => self.rows,
            RunKind::Columns => self.columns,
        }
    }

    /// The numbers of the row wait no more: they are idle. Once no row waits, no column does.
    pub(crate) fn settle_numbers(&mut self, y: u8)
        requires { y < W.room }
        ensures { AreNumbersSettled W.bits W.room y self.old self.new }
    {
        self.numbers = self.numbers.but(W::one(usize::from(y)));
        if !self.numbers.is_some() {
            self.number_columns = W::none();
        }
    }

    /// The runs of this kind wait no more: they are idle.
    pub(crate) fn settle_runs(&mut self, kind: RunKind)
        ensures { AreLightsSettled W.bits (λ p. run_houses p kind) (λ p. run_lines p kind)
            self.old self.new }
    {
        match kind {
            RunKind::Rows => self.rows = W::none(),
            RunKind::Columns => self.columns = W::none(),
        }
    }

    /// The white cells wait no more: they are idle.
    pub(crate) fn settle_whites(&mut self)
        ensures { AreLightsSettled W.bits lit_house light_cells self.old self.new }
    {
        self.ones = lines(W::none());
    }

    /// Of these cells of a row those that may wait.
    pub(crate) fn whites(&self, y: usize, cells: W) -> W
        requires { y < W.room }
        ensures { AreThoseMet W.bits self.now.ones y cells result }
    {
        if self.ones.rows.has(y) {
            return cells;
        }
        cells.both(self.ones.columns)
    }

    /// Wakes what may be idle no more since the trail had that length.
    pub(crate) fn wake(&mut self, planes: &Planes<W>, len: usize)
        requires { len ≤ planes.now.len }
        ensures { AreLightsWokenSince W.bits W.room len planes.now self.old self.new }
    {
        if planes.len() == len {
            return;
        }
        let (zeros, ones) = planes.lost(len);
        *self = self.woken(zeros, ones);
    }

    /// What waits where a closing begins: what the value counts for that the cell `from` has lost, or all where none is named.
    pub(crate) fn begin(
        planes: &Planes<W>,
        _puzzle: &LightPuzzle,
        from: Option<usize>,
    ) -> LightWaits<W>
        requires planes { ArePlanesOf W.room _puzzle.now planes.now }
        requires closed_but { IsClosedBut (light_rules _puzzle.now) (planes_have planes.now) from }
        ensures { AreLightsRested W.bits _puzzle.now result (planes_have planes.now) }
    {
        let Some(place) = from else {
            return LightWaits::all();
        };
        let (y, x) = planes.split(place);
        let cell = Touched {
            columns: W::one(x),
            rows: W::one(y),
        };
        let none = LightWaits::at(W::none());
        let no_lines = lines(W::none());
        if planes.row(y as u8, 1).has(x) {
            return none.woken(cell, no_lines);
        }
        none.woken(no_lines, cell)
    }
}
