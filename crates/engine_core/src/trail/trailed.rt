//! A board, and the trail of its changes: what each changed cell had before, so that it can be put back.
#![tactic(auto, using(crate::proofs::LawSets::trail_laws))]

ghost use Rattle.std.specs.Prelude.{◌≡◌, ◌≢◌, ℕ, ◌+◌, ◌*◌, ◌<◌, ◌≤◌, IfOk, bit_and, length, true, false};
ghost use Rattle.engine_core.specs.Common.{has, cells_of, SameShape, IsInside, count_below, only, max_cells, max_values, IsAlive, IsDeadAfter, KeepsChanges, IsBoardOf, IsMarkedOut, needs_of, IsBitsOf, trail_back_at, change_at, left_by, IsTrailLonger, IsTrailBack, IsHouseStruck};

use crate::house_rules::HouseRules;
use crate::notes::Notes;
use crate::rule_set::RuleSet;
use crate::rules::Rules;
use grid_core::{Board, Fixed};
use std::alloc::{AllocError, Global};
use std::marker::Model;

/// A board and its trail: the cells that changed, in four bytes each, and their sets.
#[derive(Drop)]
pub(crate) struct TrailedBoard {
    board: Board,
    pub(crate) changes: Fixed<(u32, u32)>,
    len: usize,
}

impl Model for TrailedBoard {
    ghost use Rattle.engine_core.specs.Common.{has, cells_of, Trail, IsTrail};

    ghost Value = { Trail };

    ghost view = { λ t. record { board = t.board; changes = t.changes.items; len = t.len } };

    ghost invariant = { λ t. IsTrail (cells_of t.board) t.board.values (has t.board)
        t.changes.items t.len };
}

impl TrailedBoard {
    /// A full board of so many cells and values, with room for each change that can come.
    ///
    /// # Errors
    ///
    /// When memory was refused.
    pub(crate) fn new(alloc: Global, cells: usize, values: u8) -> Result<TrailedBoard, AllocError>
        requires few_cells { cells ≤ max_cells }
        requires some { 1 ≤ values }
        requires few { values ≤ max_values }
        ensures cells { IfOk result (λ trailed. cells_of trailed.board ≡ cells) }
        ensures values { IfOk result (λ trailed. trailed.board.values ≡ values) }
    {
        Ok(TrailedBoard {
            board: Board::new(alloc, cells, values)?,
            changes: Fixed::copies(alloc, (0u32, 0u32), cells * usize::from(values))?,
            len: 0,
        })
    }

    /// The board.
    pub(crate) fn board(&self) -> &Board
        ensures { result.now ≡ self.now.board }
    {
        &self.board
    }

    /// How many changes were noted: to go back to this many is to go back to the board as it is now.
    pub(crate) fn len(&self) -> usize
        ensures len { result ≡ self.now.len }
        ensures here { trail_back_at self.now result ≡ has self.now.board }
    {
        self.len
    }

    /// The place of the cell whose change has this number.
    pub(crate) fn changed(&self, number: usize) -> usize
        requires { number < self.now.len }
        ensures place { result ≡ (change_at self.now.changes number).0 }
        ensures within { result < cells_of self.now.board }
    {
        self.changes[number].0 as usize
    }

    /// Begins with the board that a search starts from.
    pub(crate) fn start<R: Rules>(&mut self, rules: &R)
        requires board_of { IsBoardOf (R.system rules.now) self.old.board }
        ensures start { has self.new.board ≡ (R.system rules.now).start }
        ensures here { trail_back_at self.new 0 ≡ has self.new.board }
        ensures shape { SameShape self.old.board self.new.board }
        ensures room { length self.new.changes ≡ length self.old.changes }
    {
        rules.start(&mut self.board); // whatever it held
        self.len = 0;
    }

    /// Strikes what a visit of the house marked out, and notes what those cells had that lost a value. Says whether one would
    /// lose its last: it stops there.
    pub(crate) fn strike<S: RuleSet, N: Notes<S>>(
        &mut self,
        rules: &HouseRules<S>,
        house: usize,
        notes: &N,
        count: usize,
    ) -> bool
        requires house_in { house < (S.system (S.puzzle_of rules.now.set)).houses }
        requires made { N.made_for notes.now (needs_of (S.system (S.puzzle_of rules.now.set))) }
        requires board_of { IsBoardOf (S.system (S.puzzle_of rules.now.set)) self.old.board }
        requires alive { IsAlive (S.system (S.puzzle_of rules.now.set)) (has self.old.board) }
        requires marked { IsMarkedOut (S.system (S.puzzle_of rules.now.set)) house
            (has self.old.board) count (N.numbers notes.now) (N.kept_at notes.now house) }
        ensures dead { result ≡ true
            → IsDeadAfter (S.system (S.puzzle_of rules.now.set)) house (has self.old.board) }
        ensures struck { result ≡ false
            → IsHouseStruck (S.system (S.puzzle_of rules.now.set)) house self.old self.new }
        ensures alive { IsAlive (S.system (S.puzzle_of rules.now.set)) (has self.new.board) }
        ensures further { IsTrailLonger self.old self.new }
    {
        let (places, kept) = (rules.places(house), notes.kept(rules, house));
        for i in 0..count {
            let k = notes.number(i);
            let place = places[k] as usize;
            let had = self.board.bits(place);
            let left = had & kept[k];
            if left != had {
                if left == 0 {
                    return true;
                }
                self.leave(rules, place, had, left);
            }
        }
        false
    }

    /// Leaves no more than `left` of the cell's set, and notes what it had, which was more.
    pub(crate) fn leave<R: Rules>(&mut self, rules: &R, place: usize, before: u32, left: u32)
        requires board_of { IsBoardOf (R.system rules.now) self.old.board }
        requires place_in { place < (R.system rules.now).cells }
        requires before { IsBitsOf (has self.old.board place) (R.system rules.now).values before }
        requires left { IsBitsOf (left_by (has self.old.board) place left place)
            (R.system rules.now).values left }
        requires other { left ≢ before }
        ensures left { has self.new.board ≡ left_by (has self.old.board) place left }
        ensures further { IsTrailLonger self.old self.new }
        ensures longer { self.new.len ≡ self.old.len + 1 }
        ensures noted { change_at self.new.changes self.old.len ≡ (place, before) }
        ensures earlier { KeepsChanges self.old self.new }
    {
        self.board.retain(place, left);
        self.changes[self.len] = (place as u32, before);
        self.len += 1;
    }

    /// Leaves that value alone in the cell, which has several.
    pub(crate) fn leave_one<R: Rules>(&mut self, rules: &R, place: usize, value: u8)
        requires board_of { IsBoardOf (R.system rules.now) self.old.board }
        requires place_in { place < (R.system rules.now).cells }
        requires value_in { value < (R.system rules.now).values }
        requires there { has self.old.board place value ≡ true }
        requires several { 2 ≤ count_below (has self.old.board place) (R.system rules.now).values }
        ensures left { has self.new.board ≡ only (has self.old.board) place value }
        ensures further { IsTrailLonger self.old self.new }
    {
        let before = self.board.bits(place);
        self.leave(rules, place, before, 1 << value);
    }

    /// Leaves of each cell no more than this board has, which lies inside, and notes what those had that lost a value.
    pub(crate) fn follow<R: Rules>(&mut self, rules: &R, board: &Board)
        requires board_of { IsBoardOf (R.system rules.now) self.old.board }
        requires same_shape { IsBoardOf (R.system rules.now) board.now }
        requires inside { IsInside (has board.now) (has self.old.board) }
        ensures left { has self.new.board ≡ has board.now }
        ensures further { IsTrailLonger self.old self.new }
    {
        for place in 0..rules.cells() {
            let (before, left) = (self.board.bits(place), board.bits(place));
            if left != before {
                self.leave(rules, place, before, left);
            }
        }
    }

    /// Takes the board back to the mark: each cell changed since gets its values back.
    pub(crate) fn undo(&mut self, mark: usize)
        requires { mark ≤ self.old.len }
        ensures { IsTrailBack self.old self.new mark }
    {
        while self.len > mark {
            self.len -= 1;
            let (cell, set) = self.changes[self.len];
            self.board.restore_set(cell as usize, set);
        }
    }
}
