//! What Tents keeps beside planes, and the board that a search starts from.

ghost use Rattle.std.specs.Prelude.{◌≤◌, length};

use crate::count::game::CountGame;
use crate::count::rules::CountRules;
use crate::planes::closing::{SweepNotes, close};
use crate::planes::tents::three_rows::ThreeRows;
use crate::planes::tents::trees::cells_of_row;
use crate::planes::tents::waits::{Kind, TentWaits};
use crate::tents::pairs::PairingScratch;
use engine_core::{Needs, PlaneNotes, Taken};
use gameid_core::TentsPuzzle;
use grid_core::{Fixed, Line, Planes, Word};
use std::alloc::{AllocError, Global};

/// The trees of each row with a cell beside them that has none, and what waits while a closing goes on.
#[derive(Drop)]
pub struct TentNotes<W> {
    pub(crate) trees: Fixed<W>,
    pub(crate) waits: TentWaits<W>,
}

impl<W: Word> PlaneNotes<W, CountRules<TentsPuzzle>> for TentNotes<W> {
    ghost use Rattle.fields_core.specs.TentWaits.{AreTentsWritten};

    ghost fits = { λ notes _. W.room ≤ length notes.trees.items };

    ghost written = { λ rules notes. AreTentsWritten W.bits rules.puzzle notes };

    fn new(alloc: Global, _made: Needs) -> Result<TentNotes<W>, AllocError> {
        Ok(TentNotes {
            trees: Fixed::copies(alloc, W::none(), W::places())?,
            waits: TentWaits::all(),
        })
    }

    /// The trees of each row that have a cell without one beside them are written, too.
    fn start(&mut self, planes: &mut Planes<W>, rules: &CountRules<TentsPuzzle>) {
        let puzzle = &rules.puzzle;
        let size = puzzle.size();
        planes.begin(size);
        let all = planes.columns();
        let (first, first_others) = cells_of_row::<W>(puzzle, 0);
        let mut trees = ThreeRows::first(first);
        let mut others = ThreeRows::first(first_others);
        for y in 0..size.h() {
            let row = usize::from(y);
            let (below, others_below) = cells_of_row(puzzle, row + 1);
            trees = trees.next(below);
            others = others.next(others_below);
            self.trees[row] = trees.own.both(others.some());
            planes.take(Line::Row(y), 1, all.but(trees.some().but(trees.own)));
        }
    }

    fn close(
        &mut self,
        planes: &mut Planes<W>,
        rules: &CountRules<TentsPuzzle>,
        _scratch: &mut PairingScratch,
        from: Option<usize>,
    ) -> Taken {
        self.waits = TentWaits::new(planes, &rules.puzzle, from);
        close(self, planes, &rules.puzzle)
    }

    ghost fits_smaller = { λ _ _ _ _ room. room };
}

impl<W: Word> SweepNotes<W, TentsPuzzle> for TentNotes<W> {
    ghost use Rattle.fields_core.specs.TentWaits.{AreTentsReady, AreTentsWritten};

    ghost fits = { λ notes _. W.room ≤ length notes.trees.items };

    ghost written = { λ p notes. AreTentsWritten W.bits p notes };

    ghost ready = { λ p planes notes. AreTentsReady W.bits W.room p planes notes };

    #[inline(always)]
    fn sweep(&mut self, planes: &mut Planes<W>, puzzle: &TentsPuzzle) -> bool {
        if !self.sweep_kind(planes, puzzle, Kind::Columns) {
            return false;
        }
        if !self.sweep_kind(planes, puzzle, Kind::Rows) {
            return false;
        }
        self.sweep_kind(planes, puzzle, Kind::Trees)
            && self.sweep_kind(planes, puzzle, Kind::Squares)
    }
}
