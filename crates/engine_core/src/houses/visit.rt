//! A visit of a house in three steps: `gather`, or `read_sets`, reads the sets of its cells, the rules decide what is kept of
//! them, and `apply` strikes the rest. All strikes of a visit are decided before the first is made.
#![tactic(auto, using(crate::proofs::LawSets::visit_laws))]

ghost use Rattle.std.specs.Prelude.{◌<◌, ◌==◌, ◌≡◌, ◌≤◌, ℕ, false, length, map, slice_index, take, true};
ghost use Rattle.engine_core.specs.Common.{has, cells_of, SameShape, HasStruck, AreBitsAt, AreHeadSets, AreSetsOf, HasSetRoom, is_queue, IsBoardOf, has_bit as is_set, set_of_bits, IsBitsOf, AreBelow, sets_at, kept_in};

use crate::rules::{Rules, by_queue};
use grid_core::Board;

/// Writes down the sets of the house's cells as bits, in the order of its scope.
pub(crate) fn read_sets<R: Rules>(rules: &R, house: usize, board: &Board, sets: &mut [u32])
    requires house_in { house < (R.system rules.now).houses }
    requires board_of { IsBoardOf (R.system rules.now) board.now }
    requires room { length sets.old ≡ length ((R.system rules.now).scope house) }
    ensures { AreSetsOf (R.system rules.now) house (has board.now) sets.new }
{
    for k in 0..sets.len() {
        sets[k] = board.bits(rules.scope(house, k));
    }
}

/// Reads the sets of a house to the front of `sets`, if the rules are closed by a queue.
pub(crate) fn read_head<R: Rules>(rules: &R, house: usize, board: &Board, sets: &mut [u32])
    requires house_in { house < (R.system rules.now).houses }
    requires board_of { IsBoardOf (R.system rules.now) board.now }
    requires room { HasSetRoom (R.system rules.now) house sets.old }
    ensures { is_queue R.MODE ≡ true
        → AreHeadSets (R.system rules.now) house (has board.now) sets.new }
{
    if by_queue::<R>() {
        read_sets(rules, house, board, &mut sets[..rules.scope_len(house)]);
    }
}

/// Reads the set of each of the places into `sets`: bit `v` of the `k`-th says whether the `k`-th place has the value
/// `v`.
pub fn gather(board: &Board, places: &[u32], sets: &mut [u32])
    requires places_in { AreBelow (cells_of board.now) places.now }
    requires as_many { length sets.old ≡ length places.now }
    ensures bits { AreBitsAt board.now.values places.now (has board.now) sets.new }
    ensures sets { map (set_of_bits board.now.values) sets.new
        ≡ sets_at board.now.values places.now (has board.now) }
{
    for k in 0..places.len() {
        sets[k] = board.bits(places[k] as usize);
    }
}

/// Strikes from each of the places the values whose bit isn't set in `kept`, and says whether that was anything.
pub fn apply(board: &mut Board, places: &[u32], kept: &[u32]) -> bool
    requires places_in { AreBelow (cells_of board.old) places.now }
    requires as_many { length kept.now ≡ length places.now }
    ensures left { has board.new ≡ kept_in places.now kept.now (length places.now) (has board.old) }
    ensures shape { SameShape board.old board.new }
    ensures unchanged { result ≡ false → has board.new ≡ has board.old }
    ensures changed { result ≡ true → HasStruck (has board.old) (has board.new) }
{
    let mut struck = false;
    for k in 0..places.len() {
        struck |= board.retain(places[k] as usize, kept[k]);
    }
    struck
}

/// Whether a set of values has the value: bit `value` of it.
pub fn has_bit(bits: u32, value: u8) -> bool
    requires { value < 32 }
    ensures { result ≡ is_set bits value }
{
    (bits >> value) & 1 == 1
}
