//! What is looked for after a plain visit: the houses of each cell that lost a value, and a cell without any.

ghost use Rattle.std.specs.Prelude.{◌<◌, ◌≡◌, ◌≤◌, false, length, true};
ghost use Rattle.engine_core.specs.Common.{has, AllWait, AreCalled, AreWokenAfter, HasSetRoom, IsBoardOf, is_queue, is_dead_in, words_of, AreWokenAt};

use crate::rules::{Rules, by_queue};
use crate::waits::{dequeue_if, enqueue};
use grid_core::Board;

/// Marks the houses that have the place.
pub(crate) fn mark_at<R: Rules>(rules: &R, place: usize, waits: &mut [u64])
    requires place_in { place < (R.system rules.now).cells }
    requires room { words_of (R.system rules.now).houses ≤ length waits.old }
    ensures { AreWokenAt (R.system rules.now) place waits.old waits.new }
{
    let mut from = 0;
    for _other in 0..rules.houses() {
        let Some(house) = rules.house_at(place, from) else {
            return;
        };
        enqueue(waits, house);
        from = house + 1;
    }
}

/// Marks the houses of each cell of this house that has another set than the one given.
pub(crate) fn mark_changed<R: Rules>(
    rules: &R,
    house: usize,
    sets: &[u32],
    board: &Board,
    waits: &mut [u64],
)
    requires house_in { house < (R.system rules.now).houses }
    requires board_of { IsBoardOf (R.system rules.now) board.now }
    requires long { length sets.now ≡ length ((R.system rules.now).scope house) }
    requires room { words_of (R.system rules.now).houses ≤ length waits.old }
    ensures { AreCalled (R.system rules.now) house sets.now (has board.now) waits.old waits.new }
{
    for k in 0..sets.len() {
        let place = rules.scope(house, k);
        if board.bits(place) != sets[k] {
            mark_at(rules, place, waits);
        }
    }
}

/// Marks the houses that wait after a visit of this house that struck anything. Its own mark is taken away already. In a
/// queue they are those of each cell with another set than the one given, and else all houses.
pub(crate) fn mark_after<R: Rules>(
    rules: &R,
    house: usize,
    sets: &[u32],
    board: &Board,
    waits: &mut [u64],
)
    requires house_in { house < (R.system rules.now).houses }
    requires board_of { IsBoardOf (R.system rules.now) board.now }
    requires long { HasSetRoom (R.system rules.now) house sets.now }
    requires room { words_of (R.system rules.now).houses ≤ length waits.old }
    ensures queue { is_queue R.MODE ≡ true
        → AreWokenAfter (R.system rules.now) house sets.now (has board.now) waits.old waits.new }
    ensures sweeps { is_queue R.MODE ≡ false → AllWait (R.system rules.now) waits.new }
{
    if !by_queue::<R>() {
        waits.fill(u64::MAX);
        return;
    }
    let sets = &sets[..rules.scope_len(house)];
    mark_changed(rules, house, sets, board, waits);
    dequeue_if(waits, house, R::SETTLED);
}

/// Whether a cell of the house has no value.
pub(crate) fn is_house_dead<R: Rules>(rules: &R, house: usize, board: &Board) -> bool
    requires house_in { house < (R.system rules.now).houses }
    requires board_of { IsBoardOf (R.system rules.now) board.now }
    ensures { result ≡ is_dead_in (R.system rules.now) house (has board.now) }
{
    let mut dead = false;
    for k in 0..rules.scope_len(house) {
        dead |= board.bits(rules.scope(house, k)) == 0;
    }
    dead
}
