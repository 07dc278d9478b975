//! Sweeps of the houses of Light Up on planes.
#![tactic(auto, using(crate::proofs::LawSets::tent_sweep_laws))]

ghost use Rattle.std.specs.Prelude.{◌≡◌, true};
ghost use Rattle.fields_core.specs.Common.{AreLightsReady, AreVisited, all_runs, houses_in_grid, houses_in_rows, lit_house, numbers_of_row, white_houses};

use crate::planes::light_up::light_notes::LightNotes;
use crate::planes::light_up::visits::visit_numbers;
use crate::planes::light_up::waits::RunKind;
use gameid_core::LightPuzzle;
use grid_core::{Planes, Word};

impl<W: Word> LightNotes<W> {
    /// Visits the numbers that wait, up to one whose house has no filling, and wakes what lost values may bind.
    pub(crate) fn sweep_numbers(&mut self, planes: &mut Planes<W>, puzzle: &LightPuzzle) -> bool
        requires ready { AreLightsReady W.bits W.room puzzle.now planes.old self.old }
        ensures visited { AreVisited (houses_in_rows puzzle.now numbers_of_row)
            planes.old planes.new result }
        ensures ready { result ≡ true
            → AreLightsReady W.bits W.room puzzle.now planes.new self.new }
        ensures kept { self.new.tables ≡ self.old.tables }
    {
        let mut left = self.waits.numbers.both(planes.rows());
        while left.is_some() {
            let y = left.lowest();
            let len = planes.len();
            let at = self.waits.number_columns;
            if !visit_numbers(planes, puzzle, &self.tables, y as u8, at) {
                return false;
            }
            left = left.without_lowest();
            if planes.len() == len {
                self.waits.settle_numbers(y as u8);
            } else {
                self.waits.wake(planes, len);
                left = self.waits.numbers.both(planes.rows()).but(W::all(y + 1));
            }
        }
        true
    }

    /// Visits the runs of a kind that wait, up to one that has no filling. They take 1 alone: then all of them are idle.
    fn sweep_runs(&mut self, planes: &mut Planes<W>, puzzle: &LightPuzzle, kind: RunKind) -> bool
        requires ready { AreLightsReady W.bits W.room puzzle.now planes.old self.old }
        ensures visited { AreVisited (all_runs puzzle.now kind) planes.old planes.new result }
        ensures ready { result ≡ true
            → AreLightsReady W.bits W.room puzzle.now planes.new self.new }
        ensures kept { self.new.tables ≡ self.old.tables }
    {
        let len = planes.len();
        let mut left = self.waits.runs(kind).both(kind.lines(planes));
        while left.is_some() {
            if !self
                .tables
                .visit_runs(planes, puzzle, kind, left.lowest() as u8)
            {
                return false;
            }
            left = left.without_lowest();
        }
        self.waits.wake(planes, len);
        self.waits.settle_runs(kind);
        true
    }

    /// Visits the white cells that may strike, up to one without a filling. They take 0 alone, which binds none of them. Below
    /// a cell that is passed for its column run, none of that run is looked at.
    fn sweep_cells(&mut self, planes: &mut Planes<W>, puzzle: &LightPuzzle) -> bool
        requires ready { AreLightsReady W.bits W.room puzzle.now planes.old self.old }
        ensures visited { AreVisited (houses_in_grid puzzle.now lit_house) planes.old
            planes.new result }
        ensures ready { result ≡ true
            → AreLightsReady W.bits W.room puzzle.now planes.new self.new }
        ensures kept { self.new.tables ≡ self.old.tables }
    {
        let len = planes.len();
        let rows = self.tables.reach(planes, puzzle, self.waits.ones);
        let mut above = W::none();
        for y in rows.0..rows.1 {
            let whites = self.tables.rows[y];
            above = above.both(whites);
            let some = self.waits.whites(y, whites.but(above));
            let Some(met) = self.tables.visit_lits(planes, puzzle, y as u8, some) else {
                return false;
            };
            above = above.either(met);
        }
        self.waits.wake(planes, len);
        self.waits.settle_whites();
        true
    }

    /// Visits the runs that wait and the white cells, up to one that has no filling.
    pub(crate) fn sweep_white(&mut self, planes: &mut Planes<W>, puzzle: &LightPuzzle) -> bool
        requires ready { AreLightsReady W.bits W.room puzzle.now planes.old self.old }
        ensures visited { AreVisited (white_houses puzzle.now) planes.old planes.new result }
        ensures ready { result ≡ true
            → AreLightsReady W.bits W.room puzzle.now planes.new self.new }
        ensures kept { self.new.tables ≡ self.old.tables }
    {
        self.sweep_runs(planes, puzzle, RunKind::Rows)
            && self.sweep_runs(planes, puzzle, RunKind::Columns)
            && self.sweep_cells(planes, puzzle)
    }
}
