//! The mates of lefts, and the lefts that own rights.

ghost use Rattle.std.specs.Prelude.{◌≡◌, ◌+◌, ◌^◌, ◌<◌, IfOk, [], ◌∷◌, ◌++◌, length, slice_index, slice_set};
ghost use Rattle.grid_core.specs.Augmenting.{IsFree, AreOwnMates, IsOwner};

use crate::fixed::Fixed;
use std::alloc::{AllocError, Global};
use std::marker::Model;

/// The right that each of the first lefts has for its mate, and the left that owns each right.
#[derive(Drop)]
pub(crate) struct Mates {
    mates: Fixed<usize>,
    owners: Fixed<Option<usize>>,
    count: usize,
}

impl Model for Mates {
    ghost use Rattle.std.specs.Prelude.{◌≡◌, ◌≤◌, vec_len, take};
    ghost use Rattle.grid_core.specs.Augmenting.{MatesView, AreOwners};

    ghost Value = { MatesView };

    ghost view = { λ m. record { room = vec_len m.owners; mates = take m.count m.mates.items } };

    ghost invariant = { λ m. (m.count ≤ vec_len m.mates)
        × (vec_len m.mates ≡ vec_len m.owners)
        × AreOwners m.owners.items (take m.count m.mates.items) };
}

impl Mates {
    /// Room for n lefts and n rights.
    pub(crate) fn new(alloc: Global, n: usize) -> Result<Mates, AllocError>
        ensures { IfOk result (λ m. (m.room ≡ n) × (m.mates ≡ [])) }
    {
        Ok(Mates {
            mates: Fixed::copies(alloc, 0, n)?,
            owners: Fixed::copies(alloc, None, n)?,
            count: 0,
        })
    }

    /// Takes each left's mate away.
    pub(crate) fn clear(&mut self)
        ensures { self.new ≡ record self.old { mates = [] } }
    {
        self.owners.fill(None);
        self.count = 0;
    }

    /// How many lefts have a mate, each its own.
    pub(crate) fn count(&self) -> usize
        ensures count { result ≡ length self.now.mates }
        ensures own { AreOwnMates self.now.mates result }
    {
        self.count
    }

    /// The mate of a left.
    pub(crate) fn mate(&self, left: usize) -> usize
        requires { left < length self.now.mates }
        ensures { result ≡ slice_index self.now.mates left }
    {
        self.mates[left]
    }

    /// The left whose mate is the right.
    pub(crate) fn owner(&self, right: usize) -> Option<usize>
        requires { right < self.now.room }
        ensures owner { IsOwner self.now.mates right result }
        ensures next_fits { right + 1 < 2 ^ 64 }
    {
        self.owners[right]
    }

    /// Gives a free right to the next left.
    pub(crate) fn push(&mut self, right: usize)
        requires room { length self.old.mates < self.old.room }
        requires right_in { right < self.old.room }
        requires free { IsFree self.old.mates right }
        ensures { self.new ≡ record self.old { mates = self.old.mates ++ right ∷ [] } }
    {
        self.mates[self.count] = right;
        self.owners[right] = Some(self.count);
        self.count += 1;
    }

    /// Gives a free right to a left, and says which right it had, which is free from then on.
    pub(crate) fn replace(&mut self, left: usize, right: usize) -> usize
        requires left_in { left < length self.old.mates }
        requires right_in { right < self.old.room }
        requires free { IsFree self.old.mates right }
        ensures had { result ≡ slice_index self.old.mates left }
        ensures freed { IsFree self.new.mates result }
        ensures has { self.new ≡ record self.old { mates = slice_set self.old.mates left right } }
    {
        let old = self.mates[left];
        self.owners[old] = None;
        self.owners[right] = Some(left);
        self.mates[left] = right;
        old
    }
}
