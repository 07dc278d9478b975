//! What a visit of a house keeps by its single values and places.
#![tactic(auto, using(crate::proofs::SinglesLemmas::decided_broken))]

ghost use Rattle.std.specs.Prelude.{◌≡◌, ℕ, ◌<◌, ◌≤◌, length};
ghost use Rattle.grid_core.specs.Candidates.{max_values};
ghost use Rattle.solo_core.specs.Common.{any_below, has_bit as is_set, IsDecided, has_in};
ghost use Rattle.solo_core.specs.Singles.{has_other_bit, has_only_bit, is_broken as some_broken, stays_in, strikes_by_singles};

use crate::visits::bits::{next_bit, others_below, with_more_if, without};
use engine_core::has_bit;

/// Decides what is kept of the sets of a house: a value is struck from a cell where another cell has only that value,
/// where the cell is the only place of another value, where some cell has no value, or where some value has no place.
pub(crate) fn keep_singles(values: u8, sets: &[u32], kept: &mut [u32])
    requires few { values ≤ max_values }
    requires as_many { length kept.old ≡ length sets.now }
    ensures { IsDecided values (strikes_by_singles values) sets.now kept.new }
{
    if is_broken(values, sets) {
        kept.fill(0);
        return;
    }
    for place in 0..sets.len() {
        kept[place] = keep_cell(values, sets, place);
    }
}

/// The values of the cell that are neither taken by another cell nor given up for another value.
fn keep_cell(values: u8, sets: &[u32], place: usize) -> u32
    requires few { values ≤ max_values }
    requires place_in { place < length sets.now }
    ensures { (v : ℕ) → v < values → is_set result v ≡ stays_in values sets.now place v }
{
    let (mut taken, mut elsewhere) = (0, 0);
    for j in 0..sets.len() {
        taken = with_more_if(taken, only_value(values, sets[j]), j != place);
        elsewhere = with_more_if(elsewhere, sets[j], j != place);
    }
    let set = without(sets[place], taken);
    without(set, with_another(values, without(sets[place], elsewhere)))
}

/// The value of a set that has no other.
fn only_value(values: u8, set: u32) -> u32
    requires { values ≤ max_values }
    ensures { (v : ℕ) → v < values → is_set result v ≡ has_only_bit values set v }
{
    without(set, with_another(values, set))
}

/// The values beside which the set has another.
fn with_another(values: u8, set: u32) -> u32
    requires { values ≤ max_values }
    ensures { (v : ℕ) → v < values → is_set result v ≡ has_other_bit values set v }
{
    let mut others = 0;
    for value in 0..values {
        let all_others = others_below(values, 1 << value);
        others = with_more_if(others, all_others, has_bit(set, value));
    }
    others
}

/// Whether some cell has no value, or some value no place.
fn is_broken(values: u8, sets: &[u32]) -> bool
    requires { values ≤ max_values }
    ensures { result ≡ some_broken (length sets.now) values (has_in sets.now) }
{
    let (mut some, mut empty) = (0, false);
    for j in 0..sets.len() {
        some |= sets[j];
        empty |= !has_some(values, sets[j]);
    }
    empty || has_some(values, others_below(values, some))
}

/// Whether the set has a value.
fn has_some(values: u8, set: u32) -> bool
    requires { values ≤ max_values }
    ensures { result ≡ any_below (is_set set) values }
{
    next_bit(set, 0, usize::from(values)).is_some()
}
