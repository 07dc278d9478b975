//! Which cell of a house has which value in one filling without repeat.

ghost use Rattle.std.specs.Prelude.{◌≡◌, ◌≤◌, [], false, length, true};
ghost use Rattle.grid_core.specs.Candidates.{max_values};
ghost use Rattle.solo_core.specs.PeeledHouses.{IsPaired, IsShortRest, AreCellsOf};

use crate::visits::graph::{CellValueGraph, MANY};
use crate::visits::quick::pair_quickly;
use arrayvec::ArrayVec;
use grid_core::{Paired, Pairing};

/// Pairs these cells with values. Says whether it can: else some of them have fewer values than they are.
pub(crate) fn pair_rest(
    values: u8,
    sets: &[u32],
    rest: &[u8],
    pairing: &mut Pairing,
    paired: &mut ArrayVec<u8, MANY>,
) -> bool
    requires few { values ≤ max_values }
    requires rest_few { length rest.now ≤ max_values }
    requires rest_in { AreCellsOf sets.now rest.now }
    requires lefts { length rest.now ≤ pairing.old.room }
    requires rights { values ≤ pairing.old.room }
    requires none { paired.old.items ≡ [] }
    ensures room { pairing.new.room ≡ pairing.old.room }
    ensures all { result ≡ true → IsPaired values sets.now rest.now paired.new.items }
    ensures short { result ≡ false → IsShortRest values sets.now rest.now pairing.new.short }
{
    let graph = CellValueGraph { sets, rest, values };
    if pair_quickly(&graph, paired) {
        return true;
    }
    if let Paired::Short = pairing.run(&graph) {
        return false;
    }
    paired.clear();
    for i in 0..rest.len() {
        paired.push(pairing.mate(i) as u8);
    }
    true
}
