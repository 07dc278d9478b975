//! The walk over trials, level by level.

ghost use Rattle.std.specs.Prelude.{◌≡◌, ◌≤◌, length};
ghost use Rattle.engine_core.specs.Common.{needs_of, FitsIn, AreLong, IsSearched};

use crate::rules::Rules;
use crate::search::levels::Levels;
use crate::search::position::Position;

/// What a search says of the puzzle.
#[derive(Clone, Copy, PartialEq, Eq, Debug)]
pub enum Verdict {
    /// No grid is a solution.
    None,
    /// One grid is a solution, and no other.
    One,
    /// Two different grids are solutions, at least.
    Several,
    /// The walk has more trials than the budget.
    GaveUp {
        /// Whether a solution was found.
        found: bool,
    },
}

/// What a search works in and has found: how many trials it made, how many visits or sweeps its closings made, and how many
/// trials were open at once, at most.
#[derive(Drop)]
pub(crate) struct Search {
    pub levels: Levels,
    pub trials: u64,
    pub turns: u128,
    pub deepest: usize,
}

impl Search {
    /// Walks over the trials of the start board until the verdict is known or the budget is spent.
    pub(crate) fn run<R: Rules, P: Position<R>>(
        &mut self,
        rules: &R,
        position: &mut P,
        budget: u64,
    ) -> Verdict
        requires fits { FitsIn (needs_of (R.system rules.now)) (P.room position.old).needs }
        requires long { AreLong (R.system rules.now).cells self.old.levels }
        ensures searched { IsSearched (R.system rules.now) budget result self.new }
        ensures few { self.new.deepest ≤ (R.system rules.now).cells }
        ensures long { AreLong (R.system rules.now).cells self.new.levels }
        ensures frames { length self.new.levels.frames.items
            ≡ length self.old.levels.frames.items }
        ensures room { P.room position.new ≡ P.room position.old }
    {
        position.begin(rules);
        self.levels.depth = 0;
        self.levels.grids.found = 0;
        self.trials = 0;
        self.deepest = 0;
        self.turns = self.levels.descend(rules, position, None, 0) as u128;
        while self.levels.depth > 0 && self.levels.grids.found < 2 {
            match self.levels.next_trial(rules, position) {
                None => self.levels.depth -= 1,
                Some(cell) => {
                    if self.trials == budget {
                        return Verdict::GaveUp {
                            found: self.levels.grids.found > 0,
                        };
                    }
                    self.trials += 1;
                    self.deepest = self.deepest.max(self.levels.depth);
                    let from = if rules.values() == 2 { cell } else { 0 };
                    self.turns += self.levels.descend(rules, position, Some(cell), from) as u128;
                }
            }
        }
        match self.levels.grids.found {
            0 => Verdict::None,
            1 => Verdict::One,
            _ => Verdict::Several,
        }
    }
}
