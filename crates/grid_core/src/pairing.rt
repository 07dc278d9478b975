//! Pairings of two sides.

ghost use Rattle.std.specs.Prelude.{◌≡◌, ℕ, ◌<◌, ◌≤◌, Bool, IfOk, [], length, slice_index};
ghost use Rattle.grid_core.specs.Pairings.{IsNextJoined};

use crate::augmenting::{explore, shift};
use crate::frontier::Frontier;
use crate::mates::Mates;
use std::alloc::{AllocError, Global};
use std::marker::Model;

/// Which lefts are joined to which rights. Both are numbered from 0.
pub trait Edges {
    ghost left_count: { Self → ℕ };

    ghost right_count: { Self → ℕ };

    ghost joins: { Self → ℕ → ℕ → Bool };

    /// How many lefts there are.
    fn lefts(&self) -> usize
        ensures { result ≡ left_count self.now };

    /// How many rights there are.
    fn rights(&self) -> usize
        ensures { result ≡ right_count self.now };

    /// The least right at or after `from` that is joined to `left`.
    fn next(&self, left: usize, from: usize) -> Option<usize>
        requires { left < left_count self.now }
        ensures { IsNextJoined (joins self.now left) from (right_count self.now) result };
}

/// What a run came to.
#[derive(Clone, Copy, Debug, PartialEq, Eq)]
pub enum Paired {
    /// Each left has a joined right of its own.
    All,
    /// Some lefts are joined to fewer rights than they are.
    Short,
}

/// Room for pairings of up to so many lefts and rights, and the last pairing.
#[derive(Drop)]
pub struct Pairing {
    mates: Mates,
    frontier: Frontier,
}

impl Model for Pairing {
    ghost use Rattle.std.specs.Prelude.{◌≡◌};
    ghost use Rattle.grid_core.specs.Pairings.{PairingView};

    ghost Value = { PairingView };

    ghost view = { λ p. record {
      room = p.mates.room;
      mates = p.mates.mates;
      short = p.frontier.lefts;
    } };

    ghost invariant = { λ p. p.frontier.room ≡ p.mates.room };
}

impl Pairing {
    ghost use Rattle.grid_core.specs.EdgePairings.{IsPairingOf, IsShortSetOf};

    /// Room for n lefts and n rights.
    pub fn new(alloc: Global, n: usize) -> Result<Pairing, AllocError>
        ensures { IfOk result (λ p. (p.room ≡ n) × (p.mates ≡ []) × (p.short ≡ [])) }
    {
        Ok(Pairing {
            mates: Mates::new(alloc, n)?,
            frontier: Frontier::new(alloc, n)?,
        })
    }

    /// Pairs each left with a joined right of its own, or finds lefts that are joined to too few.
    pub fn run<E: Edges>(&mut self, edges: &E) -> Paired
        requires lefts_fit { E.left_count edges.now ≤ self.old.room }
        requires rights_fit { E.right_count edges.now ≤ self.old.room }
        ensures room { self.new.room ≡ self.old.room }
        ensures all { result ≡ Paired.All → IsPairingOf E.Edges edges.now self.new.mates }
        ensures none_short { result ≡ Paired.All → self.new.short ≡ [] }
        ensures no_mates { result ≡ Paired.Short → self.new.mates ≡ [] }
        ensures short { result ≡ Paired.Short → IsShortSetOf E.Edges edges.now self.new.short }
    {
        self.mates.clear();
        while self.mates.count() < edges.lefts() {
            match explore(edges, &self.mates, &mut self.frontier) {
                Some(way) => shift(edges, &self.frontier, way, &mut self.mates),
                None => {
                    self.mates.clear();
                    self.frontier.sort();
                    return Paired::Short;
                }
            }
        }
        self.frontier.clear();
        Paired::All
    }

    /// The right of a left, after a run that paired all.
    pub fn mate(&self, left: usize) -> usize
        requires { left < length self.now.mates }
        ensures { result ≡ slice_index self.now.mates left }
    {
        self.mates.mate(left)
    }

    /// The lefts that the last run found to be joined to too few rights, ascending; else none.
    pub fn short(&self) -> &[usize]
        ensures { result.now ≡ self.now.short }
    {
        self.frontier.lefts()
    }
}
