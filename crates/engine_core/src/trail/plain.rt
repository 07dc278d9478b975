//! A board of sets with its trail, closed by plain visits, as a position.
#![tactic(auto, using(crate::proofs::LawSets::position_laws))]

ghost use Rattle.std.specs.Prelude.{length};
ghost use Rattle.engine_core.specs.Common.{IsTrailUnderWay, no_notes, standing_of};

use crate::closing::closer::Closer;
use crate::mode::{Closing, Taken};
use crate::rules::Rules;
use crate::search::position::Position;
use crate::trail::cells::{best_cell, least_value};
use crate::trail::trailed::TrailedBoard;
use grid_core::Grid;
use std::alloc::{AllocError, Global};
use std::marker::Model;

/// A board with its trail, for any rules. With it goes what closes a board by plain visits: each closing is made on a copy,
/// and what it struck is then struck from the board and noted.
#[derive(Drop)]
pub struct PlainPosition<R: Rules> {
    closer: Closer<R>,
    trailed: TrailedBoard,
}

impl<R: Rules> Model for PlainPosition<R> {
    ghost use Rattle.engine_core.specs.Common.{Placed, IsPlainPlaced};

    ghost Value = { Placed (Unit {0}) };

    ghost view = { λ s. record {
      made = s.closer.made;
      trail = s.trailed;
      waits = s.closer.waits;
      notes = tt;
    } };

    ghost invariant = { λ s. IsPlainPlaced s.closer.made s.trailed.board };
}

impl<R: Rules> Position<R> for PlainPosition<R> {
    ghost stands = { λ s. standing_of s };

    ghost room = { λ s. record { needs = s.made; trail = length s.trail.changes } };

    ghost walks = { λ rules s. IsTrailUnderWay no_notes (R.system rules) s };

    fn new(alloc: Global, rules: &R) -> Result<PlainPosition<R>, AllocError> {
        let closer = Closer::new(alloc, rules, 0)?;
        let trailed = TrailedBoard::new(alloc, rules.cells(), rules.values())?;
        Ok(PlainPosition { closer, trailed })
    }

    fn changes(&self) -> usize {
        self.trailed.changes.len()
    }

    fn len(&self) -> usize {
        self.trailed.len()
    }

    fn begin(&mut self, rules: &R) {
        self.trailed.start(rules);
    }

    fn close(&mut self, rules: &R, from: Option<usize>) -> Taken {
        let board = self.trailed.board();
        let taken = self.closer.close_board(rules, board, from);
        if let Closing::Open = taken.closing {
            self.trailed.follow(rules, self.closer.board());
        }
        taken
    }

    fn pick(&self, rules: &R, from: usize) -> Option<usize> {
        best_cell(self.trailed.board(), from, rules.cells())
    }

    fn next_value(&self, rules: &R, cell: usize, from: u8) -> Option<u8> {
        least_value(self.trailed.board(), cell, from, rules.values())
    }

    fn leave(&mut self, rules: &R, cell: usize, value: u8) {
        self.trailed.leave_one(rules, cell, value);
    }

    fn undo(&mut self, _rules: &R, mark: usize) {
        self.trailed.undo(mark);
    }

    fn accept(&mut self, rules: &R, grid: &mut Grid) -> bool {
        self.closer.copy(rules, self.trailed.board());
        self.closer.accept(rules, grid)
    }

    ghost inside = { λ rules s walks. walks.inside };
}
