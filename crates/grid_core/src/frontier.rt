//! The lefts that a search has reached.

ghost use Rattle.std.specs.Prelude.{◌≡◌, ℕ, ◌<◌, ◌≤◌, ◌↔◌, IsTrue, IfOk, [], length, slice_index, Contains, IsPermutation, IsSorted, take};
ghost use Rattle.std.specs.Ordering.{nat_cmp};
ghost use Rattle.std.specs.List.Sorted.{IsStrictlyIncreasing};
ghost use Rattle.grid_core.specs.Augmenting.{with_left};

use crate::fixed::Fixed;
use std::alloc::{AllocError, Global};
use std::marker::Model;

/// The lefts that a search has reached, in this order, and for each the place of its parent.
#[derive(Drop)]
pub(crate) struct Frontier {
    seen: Fixed<bool>,
    queue: Fixed<usize>,
    parents: Fixed<usize>,
    count: usize,
}

impl Model for Frontier {
    ghost use Rattle.std.specs.Prelude.{◌≡◌, ◌≤◌, vec_len, take};
    ghost use Rattle.grid_core.specs.Augmenting.{FrontierView, AreLeftsReached};

    ghost Value = { FrontierView };

    ghost view = { λ r. record {
      room = vec_len r.seen;
      lefts = take r.count r.queue.items;
      parents = take r.count r.parents.items;
    } };

    ghost invariant = { λ r. (r.count ≤ vec_len r.seen)
        × (vec_len r.queue ≡ vec_len r.seen) × (vec_len r.parents ≡ vec_len r.seen)
        × AreLeftsReached r.seen.items (take r.count r.queue.items) };
}

impl Frontier {
    /// Room for n lefts.
    pub(crate) fn new(alloc: Global, n: usize) -> Result<Frontier, AllocError>
        ensures { IfOk result (λ r. (r.room ≡ n) × (r.lefts ≡ [])) }
    {
        Ok(Frontier {
            seen: Fixed::copies(alloc, false, n)?,
            queue: Fixed::copies(alloc, 0, n)?,
            parents: Fixed::copies(alloc, 0, n)?,
            count: 0,
        })
    }

    /// Forgets each left.
    pub(crate) fn clear(&mut self)
        ensures { self.new ≡ record self.old { lefts = []; parents = [] } }
    {
        self.seen.fill(false);
        self.count = 0;
    }

    /// How many lefts were reached.
    pub(crate) fn count(&self) -> usize
        ensures count { result ≡ length self.now.lefts }
        ensures fits { result ≤ self.now.room }
    {
        self.count
    }

    /// Whether the left was reached.
    pub(crate) fn has(&self, left: usize) -> bool
        requires { left < self.now.room }
        ensures { IsTrue result ↔ Contains self.now.lefts left }
    {
        self.seen[left]
    }

    /// The left at a place, which is at none before.
    pub(crate) fn left(&self, place: usize) -> usize
        requires { place < length self.now.lefts }
        ensures left { result ≡ slice_index self.now.lefts place }
        ensures first { (j : ℕ) → j < place
            → slice_index self.now.lefts j ≡ result → ⊥ }
    {
        self.queue[place]
    }

    /// The place of the parent of the left at a place.
    pub(crate) fn parent(&self, place: usize) -> usize
        requires { place < length self.now.parents }
        ensures { result ≡ slice_index self.now.parents place }
    {
        self.parents[place]
    }

    /// The lefts.
    pub(crate) fn lefts(&self) -> &[usize]
        ensures { result.now ≡ self.now.lefts }
    {
        &self.queue[..self.count]
    }

    /// Reaches a left from the one at the parent's place.
    pub(crate) fn push(&mut self, left: usize, parent: usize)
        requires left_in { left < self.old.room }
        requires new { Contains self.old.lefts left → ⊥ }
        ensures { self.new ≡ with_left self.old left parent }
    {
        self.seen[left] = true;
        self.queue[self.count] = left;
        self.parents[self.count] = parent;
        self.count += 1;
    }

    /// Puts the lefts in ascending order.
    pub(crate) fn sort(&mut self)
        ensures room { self.new.room ≡ self.old.room }
        ensures same { IsPermutation self.old.lefts self.new.lefts }
        ensures ascending { IsStrictlyIncreasing self.new.lefts }
    {
        sort_first(&mut self.queue, self.count);
    }
}

/// Puts the first entries in ascending order.
fn sort_first(entries: &mut [usize], count: usize)
    requires { count ≤ length entries.old }
    ensures as_long { length entries.new ≡ length entries.old }
    ensures same { IsPermutation (take count entries.old) (take count entries.new) }
    ensures sorted { IsSorted nat_cmp (take count entries.new) }
{
    entries[..count].sort_unstable();
}
