//! Visits of the houses of Light Up by the words that are kept of a puzzle.

ghost use Rattle.std.specs.Prelude.{◌≡◌, ℕ, ◌+◌, ◌*◌, ◌<◌, ◌≤◌, ◌&&◌, ◌||◌, ◌==◌, true, IfNone, IfSome, is_some, length, map, nat_lt};
ghost use Rattle.fields_core.specs.Common.{AreAroundAlong, AreIdleBut, ArePlanesAlive, ArePlanesOf, AreRunsVisited, AreSafe, AreSafeInColumns, AreTables, AreVisited, AreWhitesIdleBut, IsClash, ReachesAlong, ReachesMarked, word_along, count_below, planes_have, has_bit, light_house_at, line_board, line_len, lines_beside, lit_house, lits_of_row, number_house, number_of, numbers_of_row, run_houses, run_lines};

use crate::light_up::cells::columns;
use crate::planes::light_up::tables::LightTables;
use crate::planes::light_up::waits::RunKind;
use crate::planes::visit::{Part, Parts, visit};
use gameid_core::{LightCell, LightPuzzle};
use grid_core::{Line, Planes, Word, row_place};

/// Whether the word has two places or more.
fn has_two<W: Word>(word: W) -> bool
    ensures { result ≡ nat_lt 1 (count_below (has_bit (W.bits word)) W.room) }
{
    word.is_some() && word.without_lowest().is_some()
}

/// Whether two cells of the run can have a bulb, or one must.
#[inline(always)]
fn is_safe<W: Word>(run: W, ones: W, zeros: W) -> bool
    ensures { result ≡ true
        → AreSafe (has_bit (W.bits run)) (line_board (W.bits zeros) (W.bits ones)) }
{
    let may = run.both(ones);
    has_two(may) || may.but(zeros).is_some()
}

/// The numbers of a line in a run with a marked one, or nothing if a run has two. That of `k` is at `first + k * stride`.
fn around<W: Word>(runs: &[W], first: usize, stride: usize, marked: W) -> Option<W>
    requires marked_in { (k : ℕ) → has_bit (W.bits marked) k ≡ true → k < W.room }
    requires within { ReachesMarked (length runs.now) first stride (W.bits marked) }
    ensures around { IfSome result (AreAroundAlong W.bits W.room runs.now first stride marked) }
    ensures clash { IfNone result (IsClash (word_along W.bits runs.now first stride)
        (W.bits marked)) }
{
    let mut rest = marked;
    let mut bits = W::none();
    while rest.is_some() {
        let at = rest.lowest();
        let run = runs[first + at * stride];
        rest = rest.without_lowest();
        if rest.both(run).is_some() {
            return None;
        }
        bits = bits.either(run);
    }
    Some(bits)
}

/// Visits the houses of the runs of a line. No other cell of the run of a cell that must be 1 can be 1. Says
/// whether no run has two such cells: if one has, nothing is taken. The run of cell `k` is at `first + k * stride`.
fn visit_line<W: Word>(
    planes: &mut Planes<W>,
    runs: &[W],
    line: Line,
    first: usize,
    stride: usize,
) -> bool
    requires line_in { number_of line < lines_beside planes.old.size line }
    requires within { ReachesAlong (length runs.now) first stride (line_len planes.old.size line) }
    requires alive { ArePlanesAlive planes.old }
    ensures { AreRunsVisited line (word_along W.bits runs.now first stride)
        planes.old planes.new result }
{
    let zeros = planes.line(line, 0);
    let must = planes.line(line, 1).but(zeros);
    let Some(near) = around(runs, first, stride, must) else {
        return false;
    };
    planes.take(line, 1, near.both(zeros));
    true
}

/// The places beside a place.
fn word_beside<W: Word>(at: usize) -> W
    requires { at < W.room }
    ensures { (k : ℕ) → k < W.room
        → has_bit (W.bits result) k ≡ ((k == at + 1) || (at == k + 1)) }
{
    let own = W::one(at);
    own.on().either(own.back())
}

/// Visits the house of a cell's number, if any. Says whether it has a filling or no cell: if not, nothing is taken.
fn visit_number<W: Word>(
    planes: &mut Planes<W>,
    puzzle: &LightPuzzle,
    tables: &LightTables<W>,
    y: u8,
    x: u8,
) -> bool
    requires size { planes.old.size ≡ puzzle.now.size }
    requires tables { AreTables W.bits puzzle.now tables.now }
    requires y_in { y < puzzle.now.size.h }
    requires x_in { x < puzzle.now.size.w }
    requires alive { ArePlanesAlive planes.old }
    ensures { AreVisited (light_house_at puzzle.now number_house y x) planes.old planes.new result }
{
    let place = row_place(planes.size(), usize::from(y), usize::from(x));
    match puzzle.cell(place) {
        LightCell::White => true,
        LightCell::Black => true,
        LightCell::Numbered(number) => {
            let row = word_beside::<W>(usize::from(x)).both(tables.rows[usize::from(y)]);
            let column = word_beside::<W>(usize::from(y)).both(tables.columns[usize::from(x)]);
            let parts = Parts {
                first: Part {
                    line: Line::Row(y),
                    cells: row,
                },
                second: Some(Part {
                    line: Line::Column(x),
                    cells: column,
                }),
            };
            let ones = usize::from(number);
            visit(planes, &parts, ones, ones) || !row.either(column).is_some()
        }
    }
}

/// Visits the houses of the numbers of a row that stand in the columns `at`, up to one that has no filling: all others are
/// idle. Once one has taken something, all that follow are visited.
pub(crate) fn visit_numbers<W: Word>(
    planes: &mut Planes<W>,
    puzzle: &LightPuzzle,
    tables: &LightTables<W>,
    y: u8,
    at: W,
) -> bool
    requires planes { ArePlanesOf W.room puzzle.now planes.old }
    requires tables { AreTables W.bits puzzle.now tables.now }
    requires y_in { y < puzzle.now.size.h }
    requires others { AreIdleBut puzzle.now (W.bits at) y (planes_have planes.old) }
    ensures { AreVisited (numbers_of_row puzzle.now y) planes.old planes.new result }
{
    let own = tables.numbers[usize::from(y)];
    let mut left = own.both(at);
    while left.is_some() {
        let x = left.lowest();
        let len = planes.len();
        if !visit_number(planes, puzzle, tables, y, x as u8) {
            return false;
        }
        left = left.without_lowest();
        if planes.len() != len {
            left = own.but(W::all(x + 1));
        }
    }
    true
}

impl<W: Word> LightTables<W> {
    /// Visits the runs of a kind at a line, up to one that has no filling.
    #[inline(always)]
    pub(crate) fn visit_runs(
        &self,
        planes: &mut Planes<W>,
        puzzle: &LightPuzzle,
        kind: RunKind,
        line: u8,
    ) -> bool
        requires planes { ArePlanesOf W.room puzzle.now planes.old }
        requires tables { AreTables W.bits puzzle.now self.now }
        requires line_in { line < run_lines puzzle.now kind }
        ensures { AreVisited (run_houses puzzle.now kind line) planes.old planes.new result }
    {
        let w = columns(puzzle);
        let at = usize::from(line);
        match kind {
            RunKind::Rows => visit_line(planes, &self.row_runs, Line::Row(line), at * w, 1),
            RunKind::Columns => visit_line(planes, &self.column_runs, Line::Column(line), at, w),
        }
    }

    /// Visits the house of a cell, if it is white: the cells of the run of its row, and the others of the run of its column.
    /// Says whether the house has a filling: if not, nothing is taken.
    pub(crate) fn visit_lit(
        &self,
        planes: &mut Planes<W>,
        puzzle: &LightPuzzle,
        y: u8,
        x: u8,
    ) -> bool
        requires planes { ArePlanesOf W.room puzzle.now planes.old }
        requires tables { AreTables W.bits puzzle.now self.now }
        requires y_in { y < puzzle.now.size.h }
        requires x_in { x < puzzle.now.size.w }
        ensures { AreVisited (light_house_at puzzle.now lit_house y x) planes.old planes.new
            result }
    {
        let place = usize::from(y) * columns(puzzle) + usize::from(x);
        let row = self.row_runs[place];
        let others = self.column_runs[place].but(W::one(usize::from(y)));
        let parts = Parts {
            first: Part {
                line: Line::Row(y),
                cells: row,
            },
            second: Some(Part {
                line: Line::Column(x),
                cells: others,
            }),
        };
        !row.is_some() || visit(planes, &parts, 1, row.count() + others.count())
    }

    /// Visits the houses of some white cells of a row, up to one that has no filling: all others are idle. Those of a run are
    /// passed where two of its cells can have a bulb, or one must. So is a cell where that is so of its column run: gives
    /// those, or nothing where a house has no filling.
    pub(crate) fn visit_lits(
        &self,
        planes: &mut Planes<W>,
        puzzle: &LightPuzzle,
        y: u8,
        some: W,
    ) -> Option<W>
        requires planes { ArePlanesOf W.room puzzle.now planes.old }
        requires tables { AreTables W.bits puzzle.now self.now }
        requires y_in { y < puzzle.now.size.h }
        requires some_in { (x : ℕ) → has_bit (W.bits some) x ≡ true → x < puzzle.now.size.w }
        requires others { AreWhitesIdleBut puzzle.now (W.bits some) y (planes_have planes.old) }
        ensures visited { AreVisited (lits_of_row puzzle.now y) planes.old planes.new
            (is_some result) }
        ensures met { IfSome result (λ met.
            AreSafeInColumns puzzle.now y (W.bits met) (planes_have planes.new)) }
    {
        let w = columns(puzzle);
        let ones = planes.row(y, 1);
        let zeros = planes.row(y, 0);
        let mut left = some;
        let mut met = W::none();
        while left.is_some() {
            let x = left.lowest();
            let place = usize::from(y) * w + x;
            let run = self.row_runs[place];
            left = left.without_lowest();
            if is_safe(run, ones, zeros) {
                left = left.but(run);
            } else if is_safe(
                self.column_runs[place],
                planes.column(x as u8, 1),
                planes.column(x as u8, 0),
            ) {
                met = met.either(W::one(x));
            } else if !self.visit_lit(planes, puzzle, y, x as u8) {
                return None;
            }
        }
        Some(met)
    }
}
