//! What is noted beside a board as its trail grows, and as it is taken back.
#![tactic(auto)]

ghost use Rattle.std.specs.Prelude.{◌≤◌, length};
ghost use Rattle.engine_core.specs.Common.{AreWokenSince, IsAlive, IsBoardOf, IsTrailBack, StillServes, has, needs_of, words_of};

use crate::house_rules::HouseRules;
use crate::houses::table::join_place;
use crate::notes::{Noted, Notes};
use crate::trail::trailed::TrailedBoard;

/// Marks the houses of each cell that the trail names from the number `from` on, and notes the cells that have one value now.
/// The houses of these are marked in `first` too, if last values are to come first.
pub(crate) fn wake_since<S: Noted>(
    rules: &HouseRules<S>,
    trailed: &TrailedBoard,
    from: usize,
    notes: &mut S::Notes,
    waits: &mut [u64],
    first: &mut [u64],
    last_first: bool,
)
    requires board_of { IsBoardOf (S.system (S.puzzle_of rules.now.set)) trailed.now.board }
    requires from_in { from ≤ trailed.now.len }
    requires made { S.Notes.made_for notes.old
        (needs_of (S.system (S.puzzle_of rules.now.set))) }
    requires noted { S.Notes.noted (S.puzzle_of rules.now.set) (has trailed.now.board) notes.old }
    requires room { words_of (S.system (S.puzzle_of rules.now.set)).houses ≤ length waits.old }
    requires first { words_of (S.system (S.puzzle_of rules.now.set)).houses ≤ length first.old }
    ensures woken { AreWokenSince (S.system (S.puzzle_of rules.now.set)) trailed.now from
        waits.old waits.new }
    ensures noted { S.Notes.noted (S.puzzle_of rules.now.set) (has trailed.now.board) notes.new }
    ensures keeps { StillServes S.Notes.made_for notes.old notes.new }
{
    let board = trailed.board();
    let (marks, words) = rules.marks();
    for number in from..trailed.len() {
        let place = trailed.changed(number);
        join_place(waits, marks, words, place);
        if board.count(place) == 1 {
            notes.single(rules, place, board);
            if last_first {
                join_place(first, marks, words, place);
            }
        }
    }
}

/// Takes the board back to the mark: it is noted of each cell changed since that it gets its values back, and then it does.
pub(crate) fn put_back<S: Noted>(
    rules: &HouseRules<S>,
    notes: &mut S::Notes,
    trailed: &mut TrailedBoard,
    mark: usize,
)
    requires board_of { IsBoardOf (S.system (S.puzzle_of rules.now.set)) trailed.old.board }
    requires mark { mark ≤ trailed.old.len }
    requires made { S.Notes.made_for notes.old
        (needs_of (S.system (S.puzzle_of rules.now.set))) }
    requires noted { S.Notes.noted (S.puzzle_of rules.now.set) (has trailed.old.board) notes.old }
    ensures back { IsTrailBack trailed.old trailed.new mark }
    ensures noted { S.Notes.noted (S.puzzle_of rules.now.set) (has trailed.new.board) notes.new }
    ensures keeps { StillServes S.Notes.made_for notes.old notes.new }
{
    while trailed.len() > mark {
        let last = trailed.len() - 1;
        notes.back(rules, trailed.changed(last), trailed.board());
        trailed.undo(last);
    }
}
