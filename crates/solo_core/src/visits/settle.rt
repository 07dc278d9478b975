//! The cells of a house that are settled: those with one value alone.
#![tactic(auto, using(crate::proofs::LawSets::settle_laws))]

ghost use Rattle.std.specs.Prelude.{◌≡◌, ◌≤◌, false, if◌then◌else◌, length, take};
ghost use Rattle.grid_core.specs.Candidates.{max_values};
ghost use Rattle.solo_core.specs.PeeledHouses.{AreAllCounts, AreLone, AreMetOutside, AreSettledBut, AreSettledCells, IsPeeled, IsRest, KeepsOthers};

use crate::visits::bits::{all_below, others_below};
use crate::visits::peel::Counts;

/// Copies the sets, and lists the cells that are not settled. Those with one value alone are, if their values are different;
/// else none is. Tells the values of the settled cells, and how many cells are listed.
pub(crate) fn settle(values: u8, sets: &[u32], copy: &mut [u32], rest: &mut [u8]) -> (u32, usize)
    requires few { values ≤ max_values }
    requires square { length sets.now ≡ values }
    requires as_many { length copy.old ≡ length sets.now }
    requires room { length sets.now ≤ length rest.old }
    ensures copied { copy.new ≡ sets.now }
    ensures within { result.1 ≤ length rest.new }
    ensures settled { AreSettledBut values sets.now (take result.1 rest.new) (length sets.now)
        result.0 }
{
    let all = all_below(values);
    let (mut taken, mut count) = (0, 0);
    for cell in 0..sets.len() {
        let set = sets[cell];
        copy[cell] = set;
        rest[count] = cell as u8;
        let is_open = set.count_ones() != 1;
        count += usize::from(is_open);
        taken |= unless(is_open, set);
    }
    let settled = taken & all;
    if settled.count_ones() as usize + count == sets.len() {
        return (settled, count);
    }
    for cell in 0..sets.len() {
        rest[cell] = cell as u8;
    }
    (0, sets.len())
}

/// The set, or where `on` none of it. No step depends on that.
fn unless(on: bool, set: u32) -> u32
    ensures { result ≡ (if on then 0 else set) }
{
    set & u32::from(on).wrapping_sub(1)
}

/// Strikes the values of the settled cells from the rest, and counts the values of all. Says whether anything was struck.
pub(crate) fn strike_settled(
    values: u8,
    settled: u32,
    rest: &[u8],
    sets: &mut [u32],
) -> (Counts, bool)
    requires few { values ≤ max_values }
    requires settled { AreSettledBut values sets.old rest.now (length sets.old) settled }
    ensures peeled { IsPeeled values sets.old sets.new }
    ensures counts { AreAllCounts sets.new result.0.some result.0.single result.0.shared }
    ensures settled { AreSettledCells sets.new rest.now settled }
    ensures rest { IsRest values sets.new rest.now }
    ensures lone { AreLone values sets.new settled }
    ensures outside { AreMetOutside sets.new rest.now settled }
    ensures same { result.1 ≡ false → sets.new ≡ sets.old }
    ensures others { KeepsOthers rest.now sets.old sets.new }
{
    let others = others_below(values, settled);
    let mut counts = Counts::of_settled(settled);
    let mut is_struck = false;
    for i in 0..rest.len() {
        let cell = usize::from(rest[i]);
        let set = sets[cell] & others;
        is_struck |= set != sets[cell];
        sets[cell] = set;
        counts = counts.with(set);
    }
    (counts, is_struck)
}
