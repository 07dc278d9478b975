//! Values that lead to one another, by spreads.
#![tactic(auto, using(crate::proofs::LawSets::turning_laws))]

ghost use Rattle.std.specs.Prelude.{◌≡◌, ℕ, ◌<◌, ◌≤◌, true, length};
ghost use Rattle.grid_core.specs.Candidates.{max_values};
ghost use Rattle.solo_core.specs.Common.{has_bit as is_set, has_in};
ghost use Rattle.solo_core.specs.Ways.{AreWholeParts, IsPart, IsSpreadAfter, IsSpreadBefore, StaysBefore};

use crate::visits::bits::{last_bit, with_bit, with_new_bit, without, without_bit};

/// The values that the root leads to and that lead back to it. The values that are left have all of them.
pub(crate) fn part_of(leads: &[u32], root: usize, left: u32) -> u32
    requires few { length leads.now ≤ max_values }
    requires left { AreWholeParts (length leads.now) (has_in leads.now) left }
    requires root { is_set left root ≡ true }
    ensures { IsPart (length leads.now) (has_in leads.now) root result }
{
    let after = spread_after(leads, root, left);
    spread_before(leads, root, after)
}

/// The values that the root leads to over those that are left.
fn spread_after(leads: &[u32], root: usize, left: u32) -> u32
    requires few { length leads.now ≤ max_values }
    requires left { (v : ℕ) → is_set left v ≡ true → v < length leads.now }
    requires root { is_set left root ≡ true }
    ensures { IsSpreadAfter (length leads.now) (has_in leads.now) root left result }
{
    let mut after = with_bit(0, root);
    let mut done = 0;
    while let Some(value) = last_bit(without(after, done)) {
        done = with_new_bit(done, value);
        after |= leads[value] & left;
        if after == left {
            return after;
        }
    }
    after
}

/// Those of the values that lead to the root over them.
fn spread_before(leads: &[u32], root: usize, after: u32) -> u32
    requires few { length leads.now ≤ max_values }
    requires after { (v : ℕ) → is_set after v ≡ true → v < length leads.now }
    requires root { is_set after root ≡ true }
    ensures { IsSpreadBefore (length leads.now) (has_in leads.now) root after result }
{
    let mut before = with_bit(0, root);
    loop {
        let more = spread(leads, after, before);
        if more == before || more == after {
            return more;
        }
        before = more;
    }
}

/// The values, and each of the others that leads to one of them or of those before it.
fn spread(leads: &[u32], after: u32, before: u32) -> u32
    requires few { length leads.now ≤ max_values }
    requires after { (v : ℕ) → is_set after v ≡ true → v < length leads.now }
    requires before { (v : ℕ) → is_set before v ≡ true → v < length leads.now }
    ensures grows { before ≤ result }
    ensures stays { StaysBefore (length leads.now) (has_in leads.now) after before result }
{
    let mut more = before;
    let mut left = without(after, before);
    while let Some(value) = last_bit(left) {
        left = without_bit(left, value);
        if leads[value] & more != 0 {
            more = with_new_bit(more, value);
        }
    }
    more
}
