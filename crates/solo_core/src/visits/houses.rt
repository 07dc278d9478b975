//! What a visit of a house keeps: the values that fillings without repeat have.

ghost use Rattle.std.specs.Prelude.{◌≡◌, ◌≤◌, IfNone, IfSome, Some, false, length, replicate, true};
ghost use Rattle.grid_core.specs.Candidates.{max_values};
ghost use Rattle.solo_core.specs.Common.{AreDifferent};
ghost use Rattle.solo_core.specs.PeeledHouses.{AreAllCounts, AreCellsOf, AreLone, AreMetOutside, AreSettledBut, AreSettledCells, IsPaired, IsPeeled, IsRest, KeepsFillings, KeepsOthers, KeepsParts};

use crate::visits::bits::{both, others_below};
use crate::visits::graph::MANY;
use crate::visits::mates::pair_rest;
use crate::visits::parts::{write_leads, write_parts};
use crate::visits::peel::{Counts, are_whole, peel};
use crate::visits::settle::{settle, strike_settled};
use arrayvec::ArrayVec;
use grid_core::Pairing;

/// Decides what is kept of the sets of a house: bit `v` of the `k`-th stays exactly where some filling without repeat
/// has the value `v` in the `k`-th cell. Says whether anything may be struck; else nothing is, whatever is in `kept`.
///
/// A cell with one value alone is settled: its value is struck from the others, and only these are looked at. There the values
/// of cells that have one alone are struck from the others first. If none has, and the others have all other values each,
/// nothing more is struck. Else one filling of the rest is found by a pairing. Another one has the value `v` in a cell exactly
/// where one can go from `v` back to the cell's value in the first filling, each time to a value that the cell of the last could
/// have instead: the cells on the way change their values in turn. So each cell keeps the values that are tied to its own.
pub(crate) fn keep_houses(values: u8, sets: &[u32], kept: &mut [u32], pairing: &mut Pairing) -> bool
    requires few { values ≤ max_values }
    requires square { length sets.now ≡ values }
    requires as_many { length kept.old ≡ length sets.now }
    requires room { values ≤ pairing.old.room }
    ensures decided { result ≡ true → KeepsFillings values sets.now kept.new }
    ensures none { result ≡ false → KeepsFillings values sets.now sets.now }
    ensures room { pairing.new.room ≡ pairing.old.room }
{
    let mut others = [0u8; MANY];
    let (settled, count) = settle(values, sets, kept, &mut others);
    let rest: &[u8] = &others[..count];
    match keep_settled(values, settled, rest, kept, pairing) {
        Some(is_struck) => is_struck,
        None => {
            kept.fill(0);
            true
        }
    }
}

/// Decides what is kept of the sets of a house in which all cells but the rest are settled, and have these values. Says whether
/// anything may be struck, or that no filling without repeat is left.
fn keep_settled(
    values: u8,
    settled: u32,
    rest: &[u8],
    kept: &mut [u32],
    pairing: &mut Pairing,
) -> Option<bool>
    requires few { values ≤ max_values }
    requires square { length kept.old ≡ values }
    requires settled { AreSettledBut values kept.old rest.now (length kept.old) settled }
    requires room { values ≤ pairing.old.room }
    ensures decided { IfSome result (λ is_struck. KeepsFillings values kept.old kept.new) }
    ensures same { result ≡ Some false → kept.new ≡ kept.old }
    ensures none { IfNone result (KeepsFillings values kept.old (replicate values 0)) }
    ensures others { KeepsOthers rest.now kept.old kept.new }
    ensures room { pairing.new.room ≡ pairing.old.room }
{
    let (counts, is_struck) = strike_settled(values, settled, rest, kept);
    keep_counted(values, counts, settled, rest, kept, is_struck, pairing)
}

/// The same where the values of settled cells are struck from the rest, and the values of all cells are counted. Says whether
/// anything may be struck, or was before.
pub(crate) fn keep_counted(
    values: u8,
    counts: Counts,
    settled: u32,
    rest: &[u8],
    kept: &mut [u32],
    is_struck: bool,
    pairing: &mut Pairing,
) -> Option<bool>
    requires few { values ≤ max_values }
    requires square { length kept.old ≡ values }
    requires counts { AreAllCounts kept.old counts.some counts.single counts.shared }
    requires settled { AreSettledCells kept.old rest.now settled }
    requires rest { IsRest values kept.old rest.now }
    requires lone { AreLone values kept.old settled }
    requires outside { AreMetOutside kept.old rest.now settled }
    requires room { values ≤ pairing.old.room }
    ensures decided { IfSome result (λ b. KeepsFillings values kept.old kept.new) }
    ensures same { result ≡ Some false → (kept.new ≡ kept.old) × (is_struck ≡ false) }
    ensures none { IfNone result (KeepsFillings values kept.old (replicate values 0)) }
    ensures others { KeepsOthers rest.now kept.old kept.new }
    ensures room { pairing.new.room ≡ pairing.old.room }
{
    let (lone, is_struck) = peel_if_open(values, counts, settled, rest, kept, is_struck);
    keep_unless_whole(values, lone, rest, kept, is_struck, pairing)
}

/// Goes on from cells that are settled to those that are alone once these have left, if there are any. Gives the values of all
/// of them, and whether anything may be struck, or was before.
#[inline(always)]
fn peel_if_open(
    values: u8,
    counts: Counts,
    settled: u32,
    rest: &[u8],
    kept: &mut [u32],
    is_struck: bool,
) -> (u32, bool)
    requires few { values ≤ max_values }
    requires square { length kept.old ≡ values }
    requires counts { AreAllCounts kept.old counts.some counts.single counts.shared }
    requires settled { AreSettledCells kept.old rest.now settled }
    requires rest { IsRest values kept.old rest.now }
    requires lone { AreLone values kept.old settled }
    requires outside { AreMetOutside kept.old rest.now settled }
    ensures peeled { IsPeeled values kept.old kept.new }
    ensures lone { AreLone values kept.new result.0 }
    ensures rest { IsRest values kept.new rest.now }
    ensures outside { AreMetOutside kept.new rest.now result.0 }
    ensures same { result.1 ≡ false → (kept.new ≡ kept.old) × (is_struck ≡ false) }
    ensures others { KeepsOthers rest.now kept.old kept.new }
{
    if counts.are_open() {
        (peel(values, counts, settled, rest, kept), true)
    } else {
        (settled, is_struck)
    }
}

/// Decides what is kept of a house in which these values are those of cells that are alone. Says whether anything may be
/// struck, or was before, or that no filling without repeat is left.
fn keep_unless_whole(
    values: u8,
    lone: u32,
    rest: &[u8],
    kept: &mut [u32],
    is_struck: bool,
    pairing: &mut Pairing,
) -> Option<bool>
    requires few { values ≤ max_values }
    requires square { length kept.old ≡ values }
    requires lone { AreLone values kept.old lone }
    requires rest { IsRest values kept.old rest.now }
    requires outside { AreMetOutside kept.old rest.now lone }
    requires room { values ≤ pairing.old.room }
    ensures decided { IfSome result (λ b. KeepsFillings values kept.old kept.new) }
    ensures same { result ≡ Some false → (kept.new ≡ kept.old) × (is_struck ≡ false) }
    ensures none { IfNone result (KeepsFillings values kept.old (replicate values 0)) }
    ensures others { KeepsOthers rest.now kept.old kept.new }
    ensures room { pairing.new.room ≡ pairing.old.room }
{
    if are_whole(values, lone, rest, kept) {
        return Some(is_struck);
    }
    let mut paired = ArrayVec::new();
    if !pair_rest(values, kept, rest, pairing, &mut paired) {
        return None;
    }
    Some(keep_paired(values, lone, rest, &paired, kept) || is_struck)
}

/// Decides what is kept of a house in which these values are those of cells that are alone, and the rest is paired. Says
/// whether anything may be struck.
fn keep_paired(values: u8, lone: u32, rest: &[u8], paired: &[u8], kept: &mut [u32]) -> bool
    requires few { values ≤ max_values }
    requires square { length kept.old ≡ values }
    requires lone { AreLone values kept.old lone }
    requires rest { IsRest values kept.old rest.now }
    requires paired { IsPaired values kept.old rest.now paired.now }
    ensures decided { KeepsFillings values kept.old kept.new }
    ensures same { result ≡ false → kept.new ≡ kept.old }
    ensures others { KeepsOthers rest.now kept.old kept.new }
{
    let mut leads_space = [0u32; MANY];
    let leads = &mut leads_space[..usize::from(values)];
    write_leads(kept, rest, paired, leads);
    let mut parts_space = [u32::MAX; MANY];
    let parts = &mut parts_space[..usize::from(values)];
    if !write_parts(leads, others_below(values, lone), parts) {
        return false;
    }
    keep_parts(rest, paired, parts, kept);
    true
}

/// Keeps of each set of the rest the values of the part that the cell's own value is in.
fn keep_parts(rest: &[u8], mates: &[u8], parts: &[u32], kept: &mut [u32])
    requires rest_in { AreCellsOf kept.old rest.now }
    requires different { AreDifferent rest.now }
    requires as_many { length mates.now ≡ length rest.now }
    requires mates_in { AreCellsOf parts.now mates.now }
    ensures as_many { length kept.new ≡ length kept.old }
    ensures bits { KeepsParts rest.now mates.now parts.now kept.old kept.new }
    ensures others { KeepsOthers rest.now kept.old kept.new }
{
    for i in 0..rest.len() {
        let cell = usize::from(rest[i]);
        kept[cell] = both(kept[cell], parts[usize::from(mates[i])]);
    }
}
