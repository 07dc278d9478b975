//! A visit of the open cells of a house.
#![tactic(auto)]

ghost use Rattle.std.specs.Prelude.{◌<◌, ◌≡◌, ◌≤◌, ◌&&◌, ℕ, IfNone, IfSome, false, length, nat_lt, not, replicate, slice_index, take};
ghost use Rattle.grid_core.specs.Board.{has, cells_of};
ghost use Rattle.grid_core.specs.Candidates.{max_values};
ghost use Rattle.engine_core.specs.HouseSets.{AreBelow};
ghost use Rattle.engine_core.specs.Trail.{AreRising};
ghost use Rattle.solo_core.specs.Common.{has_bit as is_set, has_in};
ghost use Rattle.solo_core.specs.OpenHouses.{AreWholeOutside, IsOpenHouse, IsVisitedOpen, ListsBits};
ghost use Rattle.solo_core.specs.PeeledHouses.{AreAllCounts, AreLone, AreMetOutside, AreSettledCells, IsPeeled, IsRest, KeepsOthers};

use crate::visits::bits::{first_bit, others_below, without, without_first};
use crate::visits::houses::keep_counted;
use crate::visits::open::OpenHouse;
use crate::visits::peel::Counts;
use engine_core::gather;
use grid_core::{Board, Pairing};

/// Decides what a visit keeps of the sets of a house's cells, and lists those from which it may strike, by their numbers: the open
/// ones, or none. Tells how many they are, or that no filling without repeat is left.
pub(crate) fn visit_open(
    values: u8,
    board: &Board,
    places: &[u32],
    house: OpenHouse,
    kept: &mut [u32],
    rest: &mut [u8],
    pairing: &mut Pairing,
) -> Option<usize>
    requires values { values ≡ board.now.values }
    requires few { values ≤ max_values }
    requires square { length places.now ≡ values }
    requires places_in { AreBelow (cells_of board.now) places.now }
    requires as_many { length kept.old ≡ length places.now }
    requires room { length places.now ≤ length rest.old }
    requires house { IsOpenHouse (λ k v. has board.now (slice_index places.now k) v)
        values house }
    requires pairing { values ≤ pairing.old.room }
    ensures visited { IfSome result
        (λ count. IsVisitedOpen values (has board.now) places.now kept.new) }
    ensures dead { IfNone result
        (IsVisitedOpen values (has board.now) places.now (replicate values 0)) }
    ensures count { IfSome result (λ count. count ≤ length rest.new) }
    ensures listed { IfSome result (λ count. AreRising values (take count rest.new)) }
    ensures others { IfSome result (λ count. AreWholeOutside values (has board.now) places.now
        (take count rest.new) kept.new) }
    ensures as_many { length kept.new ≡ length kept.old }
    ensures rest { length rest.new ≡ length rest.old }
    ensures pairing { pairing.new.room ≡ pairing.old.room }
{
    gather(board, places, kept);
    let settled = others_below(values, house.values);
    let (counts, count, is_struck) = strike_open(values, house, settled, kept, rest);
    match keep_counted(
        values,
        counts,
        settled,
        &rest[..count],
        kept,
        is_struck,
        pairing,
    ) {
        Some(true) => Some(count),
        Some(false) => Some(0),
        None => None,
    }
}

/// Lists the open cells of a house, strikes from them the values that are not open, which are settled, and counts the values of
/// all cells. Tells how many are listed, and whether anything was struck.
fn strike_open(
    values: u8,
    house: OpenHouse,
    settled: u32,
    sets: &mut [u32],
    rest: &mut [u8],
) -> (Counts, usize, bool)
    requires few { values ≤ max_values }
    requires square { length sets.old ≡ values }
    requires room { values ≤ length rest.old }
    requires house { IsOpenHouse (has_in sets.old) values house }
    requires settled { (v : ℕ) → is_set settled v
        ≡ (nat_lt v values && not (is_set house.values v)) }
    ensures few { result.1 ≤ values }
    ensures room { length rest.new ≡ length rest.old }
    ensures listed { ListsBits house.cells (take result.1 rest.new) }
    ensures peeled { IsPeeled values sets.old sets.new }
    ensures counts { AreAllCounts sets.new result.0.some result.0.single result.0.shared }
    ensures settled { AreSettledCells sets.new (take result.1 rest.new) settled }
    ensures rest { IsRest values sets.new (take result.1 rest.new) }
    ensures lone { AreLone values sets.new settled }
    ensures outside { AreMetOutside sets.new (take result.1 rest.new) settled }
    ensures same { result.2 ≡ false → sets.new ≡ sets.old }
    ensures others { KeepsOthers (take result.1 rest.new) sets.old sets.new }
{
    let mut counts = Counts::of_settled(settled);
    let (mut count, mut had) = (0, 0);
    let mut left = house.cells;
    while let Some(cell) = first_bit(left) {
        left = without_first(left);
        rest[count] = cell as u8;
        count += 1;
        let set = sets[cell] & house.values;
        had |= sets[cell];
        sets[cell] = set;
        counts = counts.with(set);
    }
    (counts, count, without(had, house.values) != 0)
}
