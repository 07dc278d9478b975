//! A walk that tries in each cell the number of a known grid first, and so comes soon to solutions that are like that grid.

ghost use Rattle.std.specs.Prelude.{◌≡◌, ◌≢◌, ◌-◌, ◌<◌, ◌≤◌, length, true};
ghost use Rattle.engine_core.specs.Common.{needs_of, FitsIn, AreLong, HasTwo, IsRetried, frame_at};

use crate::rules::Rules;
use crate::search::levels::Levels;
use crate::search::position::Position;
use grid_core::Grid;

/// How many turns a walk near a grid has from one level of the grid's own way to the level outside it.
const LEVEL_TURNS: u64 = 64;

/// Whether the grids, which are as long, differ in a cell.
fn differ(one: &Grid, other: &Grid) -> bool
    requires { length one.now ≡ length other.now }
    ensures { result ≡ true → one.now ≢ other.now }
{
    for place in 0..one.len() {
        if one.get(place) != other.get(place) {
            return true;
        }
    }
    false
}

impl Levels {
    /// Has the innermost level try the grid's number first, and the others after it.
    fn prefer(&mut self, grid: &Grid)
        requires deep { 0 < self.old.depth }
        requires room { self.old.depth ≤ length self.old.frames.items }
        requires cell_in { (frame_at self.old.frames.items (self.old.depth - 1)).cell
            < length grid.now }
        ensures { IsRetried self.old self.new }
    {
        let top = &mut self.frames[self.depth - 1];
        let wanted = grid.get(top.cell);
        if top.next == 0 {
            top.next = wanted;
        } else if top.next == wanted {
            top.next = wanted.saturating_add(1);
        } else if top.next - 1 == wanted && wanted > 0 {
            top.next = 0;
        }
    }

    /// Whether a walk of so many turns at most, which begins near the grid, comes to two different solutions. It first goes
    /// down to the grid. On the way back it leaves a level when that level's turns are spent.
    pub(crate) fn finds_two<R: Rules, P: Position<R>>(
        &mut self,
        rules: &R,
        position: &mut P,
        grid: &Grid,
        turns: u64,
    ) -> bool
        requires fits { FitsIn (needs_of (R.system rules.now)) (P.room position.old).needs }
        requires long { AreLong (R.system rules.now).cells self.old }
        requires cells { length grid.now ≡ (R.system rules.now).cells }
        ensures two { result ≡ true → HasTwo (R.system rules.now) }
        ensures long { AreLong (R.system rules.now).cells self.new }
        ensures frames { length self.new.frames.items ≡ length self.old.frames.items }
        ensures room { P.room position.new ≡ P.room position.old }
    {
        position.begin(rules);
        self.depth = 0;
        self.grids.found = 0;
        self.descend(rules, position, None, 0);
        let (mut left, mut last, mut level) = (turns, 0, 0);
        while left > 0 && self.depth > 0 && self.grids.found < 2 {
            if self.grids.found == 0 || self.depth < level {
                level = self.depth;
                last = left.saturating_sub(LEVEL_TURNS);
            }
            left -= 1;
            self.prefer(grid);
            match self.next_trial(rules, position) {
                None => self.depth -= 1,
                Some(cell) => {
                    let from = if rules.values() == 2 { cell } else { 0 };
                    self.descend(rules, position, Some(cell), from);
                }
            }
            if left == last {
                self.depth = self.depth.min(level.saturating_sub(1));
            }
        }
        self.grids.found > 1 && differ(&self.grids.first, &self.grids.second)
    }
}
