//! The rows of the white cells of Light Up that wait.

ghost use Rattle.std.specs.Prelude.{◌≡◌, ℕ, ◌+◌, ◌<◌, ◌≤◌, true};
ghost use Rattle.fields_core.specs.LightWaits.{AreColumnsParted, IsReach};
ghost use Rattle.fields_core.specs.Common.{AreColumnsPartedFrom, ArePlanesOf, AreTables, any_below, has_bit};

use crate::planes::light_up::tables::LightTables;
use gameid_core::LightPuzzle;
use grid_core::{Planes, Touched, Word};

/// The highest place.
fn highest<W: Word>(word: W) -> usize
    requires { any_below (has_bit (W.bits word)) W.room ≡ true }
    ensures has { has_bit (W.bits word) result ≡ true }
    ensures last { (k : ℕ) → k < W.room → has_bit (W.bits word) k ≡ true → k ≤ result }
{
    let mut place = word.lowest();
    let mut rest = word.without_lowest();
    while rest.is_some() {
        place = rest.lowest();
        rest = rest.without_lowest();
    }
    place
}

impl<W: Word> LightTables<W> {
    /// The first row from which one of these columns has only white cells down to this row, or else this row.
    fn above(&self, puzzle: &LightPuzzle, columns: W, low: usize) -> usize
        requires tables { AreTables W.bits puzzle.now self.now }
        requires narrow { puzzle.now.size.w ≤ W.room }
        requires low_in { low < puzzle.now.size.h }
        ensures up { result ≤ low }
        ensures apart { (y : ℕ) → y < result
            → AreColumnsParted puzzle.now (W.bits columns) y low }
    {
        let mut first = low;
        let mut live = columns.both(self.rows[low]);
        while first > 0 {
            live = live.both(self.rows[first - 1]);
            if !live.is_some() {
                return first;
            }
            first -= 1;
        }
        0
    }

    /// The row behind the last one to which one of these columns has only white cells from this row, or else behind this row.
    fn below(&self, puzzle: &LightPuzzle, columns: W, high: usize) -> usize
        requires tables { AreTables W.bits puzzle.now self.now }
        requires narrow { puzzle.now.size.w ≤ W.room }
        requires high_in { high < puzzle.now.size.h }
        ensures down { high < result }
        ensures within { result ≤ puzzle.now.size.h }
        ensures apart { AreColumnsPartedFrom puzzle.now (W.bits columns) result high }
    {
        let h = usize::from(puzzle.size().h());
        let mut end = high + 1;
        let mut live = columns.both(self.rows[high]);
        while end < h {
            live = live.both(self.rows[end]);
            if !live.is_some() {
                return end;
            }
            end += 1;
        }
        h
    }

    /// From which row to before which one houses of cells may have a cell in both a row and a column of these lines.
    pub(crate) fn reach(
        &self,
        planes: &Planes<W>,
        puzzle: &LightPuzzle,
        lines: Touched<W>,
    ) -> (usize, usize)
        requires planes { ArePlanesOf W.room puzzle.now planes.now }
        requires tables { AreTables W.bits puzzle.now self.now }
        ensures { IsReach W.bits puzzle.now lines result.0 result.1 }
    {
        let rows = lines.rows.both(planes.rows());
        if !rows.is_some() {
            return (0, 0);
        }
        let first = self.above(puzzle, lines.columns, rows.lowest());
        (first, self.below(puzzle, lines.columns, highest(rows)))
    }
}
