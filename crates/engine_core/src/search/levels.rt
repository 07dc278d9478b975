//! The levels of a search: a frame for each cell whose values are being tried, and the grids found.

ghost use Rattle.std.specs.Prelude.{◌+◌, ◌<◌, ◌≡◌, ◌≤◌, None, length};
ghost use Rattle.engine_core.specs.Common.{pick, IsClosedIn, IsClosedBut, AreGrids, AreReady, StaySolutions, IsTurn, SameMarks, singles, IsClosed, IsFull, IsNoted};

use crate::mode::Closing;
use crate::rules::Rules;
use crate::search::position::Position;
use grid_core::{Fixed, Grid};

/// A cell whose values are being tried, the next of them, and how long the trail was before the first.
#[derive(Clone, Copy)]
pub(crate) struct Frame {
    pub cell: usize,
    pub next: u8,
    pub mark: usize,
}

/// The grids that a search found: so many of the two.
#[derive(Drop)]
pub(crate) struct Grids {
    pub first: Grid,
    pub second: Grid,
    pub found: usize,
}

impl Grids {
    /// Writes down the grid of the full board, as the second where one was found. It counts if it is a solution.
    pub(crate) fn note<R: Rules, P: Position<R>>(&mut self, rules: &R, position: &mut P)
        requires walks { P.walks rules.now position.old }
        requires closed { IsClosed (R.system rules.now) (P.stands position.old).board }
        requires full { IsFull (R.system rules.now) (P.stands position.old).board }
        requires long { AreGrids (R.system rules.now).cells self.old }
        requires going { self.old.found < 2 }
        ensures noted { IsNoted (R.system rules.now) (P.stands position.old).board self.old
            self.new }
        ensures solved { StaySolutions (R.system rules.now) self.old self.new }
        ensures long { AreGrids (R.system rules.now).cells self.new }
        ensures same { P.stands position.new ≡ P.stands position.old }
        ensures walks { P.walks rules.now position.new }
        ensures room { P.room position.new ≡ P.room position.old }
    {
        let solved = if self.found == 0 {
            position.accept(rules, &mut self.first)
        } else {
            position.accept(rules, &mut self.second)
        };
        self.found += usize::from(solved);
    }
}

/// The frames of the trials that are open, and the grids found so far.
#[derive(Drop)]
pub(crate) struct Levels {
    pub frames: Fixed<Frame>,
    pub depth: usize,
    pub grids: Grids,
}

impl Levels {
    /// Takes back what was struck since the innermost level's mark, and leaves its cell's next value alone: which cell, or
    /// none where that has no value left.
    pub(crate) fn next_trial<R: Rules, P: Position<R>>(
        &mut self,
        rules: &R,
        position: &mut P,
    ) -> Option<usize>
        requires walks { P.walks rules.now position.old }
        requires ready { AreReady (R.system rules.now) (P.stands position.old) self.old }
        requires deep { 0 < self.old.depth }
        ensures turn { IsTurn (R.system rules.now) (P.stands position.old) self.old
            (P.stands position.new) self.new result }
        ensures ready { AreReady (R.system rules.now) (P.stands position.new) self.new }
        ensures depth { self.new.depth ≡ self.old.depth }
        ensures grids { self.new.grids ≡ self.old.grids }
        ensures frames { length self.new.frames.items ≡ length self.old.frames.items }
        ensures walks { P.walks rules.now position.new }
        ensures room { P.room position.new ≡ P.room position.old }
    {
        let frames: &[Frame] = &self.frames;
        let top = frames[self.depth - 1];
        position.undo(rules, top.mark);
        let value = position.next_value(rules, top.cell, top.next)?;
        self.frames[self.depth - 1].next = value + 1;
        position.leave(rules, top.cell, value);
        Some(top.cell)
    }

    /// Closes the board and judges it: a grid is noted, and a board that must be split gets a frame. Of the board is known
    /// which cell lost values since it was closed, if any, and that no cell before `from` is one to branch on. Says how many
    /// visits or sweeps the closing made.
    pub(crate) fn descend<R: Rules, P: Position<R>>(
        &mut self,
        rules: &R,
        position: &mut P,
        changed: Option<usize>,
        from: usize,
    ) -> usize
        requires walks { P.walks rules.now position.old }
        requires closed_but { IsClosedBut (R.system rules.now) (P.stands position.old).board
            changed }
        requires from_in { from ≤ (R.system rules.now).cells }
        requires none { pick from (R.system rules.now).values (P.stands position.old).board
            ≡ None }
        requires ready { AreReady (R.system rules.now) (P.stands position.old) self.old }
        requires single { self.old.depth
            ≤ singles (R.system rules.now) (P.stands position.old).board }
        requires long { AreGrids (R.system rules.now).cells self.old.grids }
        requires going { self.old.grids.found < 2 }
        ensures turns { IsClosedIn (R.system rules.now) (P.stands position.old).board result }
        ensures marks { SameMarks (R.system rules.now) (P.stands position.old) self.old
            (P.stands position.new) self.new }
        ensures ready { AreReady (R.system rules.now) (P.stands position.new) self.new }
        ensures solved { StaySolutions (R.system rules.now) self.old.grids self.new.grids }
        ensures long { AreGrids (R.system rules.now).cells self.new.grids }
        ensures deeper { self.new.depth ≤ self.old.depth + 1 }
        ensures frames { length self.new.frames.items ≡ length self.old.frames.items }
        ensures walks { P.walks rules.now position.new }
        ensures room { P.room position.new ≡ P.room position.old }
    {
        let taken = position.close(rules, changed);
        if let Closing::Dead = taken.closing {
            return taken.turns;
        }
        match position.pick(rules, from) {
            None => self.grids.note(rules, position),
            Some(cell) => {
                let mark = position.len();
                self.frames[self.depth] = Frame {
                    cell,
                    next: 0,
                    mark,
                };
                self.depth += 1;
            }
        }
        taken.turns
    }
}
