//! Which values lead to which, and their parts: those that lead to one another.
#![tactic(auto, using(crate::proofs::LawSets::parts_laws))]

ghost use Rattle.std.specs.Prelude.{◌≡◌, ℕ, ◌<◌, ◌≤◌, false, length, true};
ghost use Rattle.grid_core.specs.Candidates.{max_values};
ghost use Rattle.solo_core.specs.Common.{AreDifferent, has_bit as is_set, has_in};
ghost use Rattle.solo_core.specs.PeeledHouses.{AreCellsOf, KeepsOthers, LeadByMates};
ghost use Rattle.solo_core.specs.Ways.{AreParts, AreWholeParts, IsWritten, LiesOnRounds};

use crate::visits::bits::{next_bit, without};
use crate::visits::turning::part_of;

/// Writes that the mate of each of these cells leads to the cell's values.
pub(crate) fn write_leads(sets: &[u32], rest: &[u8], mates: &[u8], leads: &mut [u32])
    requires rest_in { AreCellsOf sets.now rest.now }
    requires as_many { length mates.now ≡ length rest.now }
    requires mates_in { AreCellsOf leads.old mates.now }
    requires different { AreDifferent mates.now }
    ensures as_many { length leads.new ≡ length leads.old }
    ensures leads { LeadByMates sets.now rest.now mates.now leads.new }
    ensures others { KeepsOthers mates.now leads.old leads.new }
{
    for i in 0..rest.len() {
        leads[usize::from(mates[i])] = sets[usize::from(rest[i])];
    }
}

/// Writes the part of each of these values, unless all of them are one part. Says whether it has.
pub(crate) fn write_parts(leads: &[u32], all: u32, parts: &mut [u32]) -> bool
    requires few { length leads.now ≤ max_values }
    requires as_many { length parts.old ≡ length leads.now }
    requires all { AreWholeParts (length leads.now) (has_in leads.now) all }
    ensures as_many { length parts.new ≡ length parts.old }
    ensures parts { result ≡ true
        → AreParts (length leads.now) (has_in leads.now) all parts.old parts.new }
    ensures one { result ≡ false → LiesOnRounds (length leads.now) (has_in leads.now) all }
{
    let mut left = all;
    let mut from = 0;
    while let Some(root) = next_bit(left, from, leads.len()) {
        let part = part_of(leads, root, left);
        if part == all {
            return false;
        }
        write_part(part, parts);
        left = without(left, part);
        from = root + 1;
    }
    true
}

/// Writes the part at each of its values.
fn write_part(part: u32, parts: &mut [u32])
    requires few { length parts.old ≤ max_values }
    requires below { (v : ℕ) → is_set part v ≡ true → v < length parts.old }
    ensures as_many { length parts.new ≡ length parts.old }
    ensures written { IsWritten part parts.old parts.new }
{
    let mut from = 0;
    while let Some(value) = next_bit(part, from, parts.len()) {
        parts[value] = part;
        from = value + 1;
    }
}
