//! The walk as it is defined: a recursion over boards, each a copy of its own.

use super::puzzles::Small;
use super::{CELLS, Numbers, Sets, VALUES};
use engine_core::Verdict;

/// What a walk has come to.
#[derive(Clone, Copy)]
pub(crate) struct Walk {
    budget: u64,
    pub(crate) trials: u64,
    pub(crate) deepest: usize,
    pub(crate) first: Option<Numbers>,
    pub(crate) second: Option<Numbers>,
    gave_up: bool,
}

impl Walk {
    /// The walk of the start board with a budget.
    pub(crate) fn new(small: &Small, budget: u64) -> Walk {
        let mut walk = Walk {
            budget,
            trials: 0,
            deepest: 0,
            first: None,
            second: None,
            gave_up: false,
        };
        walk.go_from(small, &small.start, 0);
        walk
    }

    fn is_over(&self) -> bool {
        self.gave_up || self.second.is_some()
    }

    pub(crate) fn verdict(&self) -> Verdict {
        match (self.first, self.second) {
            (_, Some(_)) => Verdict::Several,
            (first, None) if self.gave_up => Verdict::GaveUp {
                found: first.is_some(),
            },
            (Some(_), None) => Verdict::One,
            (None, None) => Verdict::None,
        }
    }

    /// The board of the trial of a value, unless there is none: the cell hasn't the value, or the walk is over, or gives
    /// up here.
    fn next_trial(&mut self, sets: &Sets, cell: usize, value: usize, depth: usize) -> Option<Sets> {
        if cell >= CELLS || value >= VALUES || !sets[cell][value] || self.is_over() {
            return None;
        }
        if self.trials >= self.budget {
            self.gave_up = true;
            return None;
        }
        self.trials = self.trials.saturating_add(1);
        self.deepest = self.deepest.max(depth.saturating_add(1));
        let mut tried = *sets;
        tried[cell] = [false; VALUES];
        tried[cell][value] = true;
        Some(tried)
    }

    /// The walk of a board under so many open trials.
    fn go_from(&mut self, small: &Small, sets: &Sets, depth: usize) {
        if depth > CELLS || self.is_over() {
            return;
        }
        let closed = small.closure(sets);
        if has_empty_cell(&closed, small.cells) {
            return;
        }
        let Some(cell) = pick(&closed, small.cells) else {
            let found = Some(grid_of(&closed));
            if small.accepts(&grid_of(&closed)) && self.first.is_some() {
                self.second = found;
            } else if small.accepts(&grid_of(&closed)) {
                self.first = found;
            }
            return;
        };
        for value in 0..VALUES {
            if let Some(tried) = self.next_trial(&closed, cell, value, depth) {
                self.go_from(small, &tried, depth + 1);
            }
        }
    }
}

fn count(set: &[bool; VALUES]) -> usize {
    set.iter().filter(|there| **there).count()
}

/// Whether one of the first cells, so many, has no value.
pub(crate) fn has_empty_cell(sets: &Sets, cells: usize) -> bool {
    sets[..cells.min(CELLS)].iter().any(|set| count(set) == 0)
}

/// The cell with fewest values among those with two or more, the lowest on a tie.
pub(crate) fn pick(sets: &Sets, cells: usize) -> Option<usize> {
    let mut best = None;
    let mut fewest = VALUES + 1;
    for cell in 0..cells.min(CELLS) {
        let values = count(&sets[cell]);
        if values >= 2 && values < fewest {
            best = Some(cell);
            fewest = values;
        }
    }
    best
}

/// The one value of each cell.
pub(crate) fn grid_of(sets: &Sets) -> Numbers {
    let mut grid = [0; CELLS];
    for cell in 0..CELLS {
        for value in 0..VALUES {
            if sets[cell][value] {
                grid[cell] = value;
            }
        }
    }
    grid
}
