//! What a walk stands on: a board that is closed, tried and put back.

ghost use Rattle.std.specs.Prelude.{◌≡◌, ℕ, ◌*◌, ◌<◌, ◌≤◌, IfOk, true, None, length};
ghost use Rattle.engine_core.specs.Common.{IsFull, IsInside, IsTakenTo, count_below, most_changes, only, own_grid, pick, IsClosed, IsNext, Needs, needs_of, FitsIn, IsClosedBut, IsClosedIn, Standing, IsOnward, IsReturned, Room};

use crate::mode::Taken;
use crate::rules::Rules;
use grid_core::Grid;
use std::alloc::{AllocError, Global};

/// A board under a walk. Values are struck from it, and a trail notes them: to go back to a length that it had is to go back
/// to the board of then.
pub trait Position<R: Rules>: Drop + Sized {
    /// The board, and the boards that it can be taken back to.
    ghost stands: { Self → Standing };

    /// What the memory was taken for, and how long the trail can be.
    ghost room: { Self → Room };

    /// A walk by the rules is under way.
    ghost walks: { R → Self → Type 0 };

    /// Takes all the memory that walks by these rules, and by smaller ones, need.
    ///
    /// # Errors
    ///
    /// When memory was refused.
    fn new(alloc: Global, rules: &R) -> Result<Self, AllocError>
        ensures needs { IfOk result (λ position. (room position).needs
            ≡ needs_of (R.system rules.now)) }
        ensures trail { IfOk result
            (λ position. (room position).trail ≡ most_changes (R.system rules.now)) };

    /// How many changes of cells can be taken back: the length of the list that holds them.
    fn changes(&self) -> usize
        ensures { result ≡ (room self.now).trail };

    /// How long the trail is: to go back to this length is to go back to the board as it is now.
    fn len(&self) -> usize
        ensures len { result ≡ (stands self.now).len }
        ensures here { (stands self.now).back result ≡ (stands self.now).board };

    /// Begins with the board that a search starts from.
    fn begin(&mut self, rules: &R)
        requires { FitsIn (needs_of (R.system rules.now)) (room self.old).needs }
        ensures start { (stands self.new).board ≡ (R.system rules.now).start }
        ensures walks { walks rules.now self.new }
        ensures room { room self.new ≡ room self.old };

    /// Closes the board, or finds that its closure is dead: what board is left then is open. Where `from` names a place, the
    /// board was closed before that place's cell lost all values but one.
    fn close(&mut self, rules: &R, from: Option<usize>) -> Taken
        requires walks { walks rules.now self.old }
        requires closed_but { IsClosedBut (R.system rules.now) (stands self.old).board from }
        ensures taken { IsTakenTo (R.system rules.now) (stands self.old) (stands self.new)
            result.closing }
        ensures turns { IsClosedIn (R.system rules.now) (stands self.old).board result.turns }
        ensures onward { IsOnward (stands self.old) (stands self.new) }
        ensures walks { walks rules.now self.new }
        ensures room { room self.new ≡ room self.old };

    /// The cell to branch on, where none before `from` is one.
    fn pick(&self, rules: &R, from: usize) -> Option<usize>
        requires walks { walks rules.now self.now }
        requires from_in { from ≤ (R.system rules.now).cells }
        requires none { pick from (R.system rules.now).values (stands self.now).board ≡ None }
        ensures { result
            ≡ pick (R.system rules.now).cells (R.system rules.now).values (stands self.now).board };

    /// The least value at or after `from` that the cell has.
    fn next_value(&self, rules: &R, cell: usize, from: u8) -> Option<u8>
        requires walks { walks rules.now self.now }
        requires cell_in { cell < (R.system rules.now).cells }
        ensures { IsNext ((stands self.now).board cell) (R.system rules.now).values from result };

    /// Leaves that value alone in the cell, which has several.
    fn leave(&mut self, rules: &R, cell: usize, value: u8)
        requires walks { walks rules.now self.old }
        requires cell_in { cell < (R.system rules.now).cells }
        requires value_in { value < (R.system rules.now).values }
        requires there { (stands self.old).board cell value ≡ true }
        requires several { 2
            ≤ count_below ((stands self.old).board cell) (R.system rules.now).values }
        ensures left { (stands self.new).board ≡ only (stands self.old).board cell value }
        ensures onward { IsOnward (stands self.old) (stands self.new) }
        ensures walks { walks rules.now self.new }
        ensures room { room self.new ≡ room self.old };

    /// Takes the board back to when the trail had this length.
    fn undo(&mut self, rules: &R, mark: usize)
        requires walks { walks rules.now self.old }
        requires marked { mark ≤ (stands self.old).len }
        requires inside { IsInside ((stands self.old).back mark) (R.system rules.now).start }
        ensures returned { IsReturned (stands self.old) (stands self.new) mark }
        ensures walks { walks rules.now self.new }
        ensures room { room self.new ≡ room self.old };

    /// Writes down the grid of the full board, which is closed, and says whether it is a solution.
    fn accept(&mut self, rules: &R, grid: &mut Grid) -> bool
        requires walks { walks rules.now self.old }
        requires closed { IsClosed (R.system rules.now) (stands self.old).board }
        requires full { IsFull (R.system rules.now) (stands self.old).board }
        requires long { length grid.old ≡ (R.system rules.now).cells }
        ensures grid { grid.new ≡ own_grid (R.system rules.now) (stands self.old).board }
        ensures long { length grid.new ≡ (R.system rules.now).cells }
        ensures solution { result ≡ (R.system rules.now).is_solution grid.new }
        ensures same { stands self.new ≡ stands self.old }
        ensures walks { walks rules.now self.new }
        ensures room { room self.new ≡ room self.old };

    /// The board has no values that the start lacks.
    ghost inside: { (rules : R) (position : Self) → walks rules position
        → IsInside (stands position).board (R.system rules).start };
}

/// Rules whose boards a store can search.
pub trait Searchable: Rules {
    /// What a search of a board stands on.
    type Position: Position<Self>;
}
