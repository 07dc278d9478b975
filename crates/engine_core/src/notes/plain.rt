//! No notes: each visit looks at all cells of its house.
#![tactic(auto)]

ghost use Rattle.std.specs.Prelude.{◌≤◌, vec_len};
ghost use Rattle.std.specs.List.{range_with_len};
ghost use Rattle.std.proofs.Common.{le_trans};

use crate::house_rules::HouseRules;
use crate::notes::Notes;
use crate::rule_set::RuleSet;
use crate::rules::Rules;
use grid_core::{Board, Fixed};
use std::alloc::{AllocError, Global};

/// Nothing but room for the sets of a house's cells, and for what is kept of them.
#[derive(Drop)]
pub struct PlainNotes {
    sets: Fixed<u32>,
    left: Fixed<u32>,
}

impl<S: RuleSet> Notes<S> for PlainNotes {
    ghost noted = { λ _ _ _. Unit {0} };

    ghost made_for = { λ notes needs. (needs.scope ≤ vec_len notes.sets)
        × (needs.scope ≤ vec_len notes.left) };

    ghost numbers = { λ notes. range_with_len 0 (vec_len notes.left) };

    ghost kept_at = { λ notes _. notes.left.items };

    fn new(alloc: Global, rules: &HouseRules<S>) -> Result<PlainNotes, AllocError> {
        let scope = rules.longest();
        Ok(PlainNotes {
            sets: Fixed::copies(alloc, 0u32, scope)?,
            left: Fixed::copies(alloc, 0u32, scope)?,
        })
    }

    fn begin(&mut self, _rules: &HouseRules<S>, _board: &Board) {}

    fn visit(
        &mut self,
        rules: &HouseRules<S>,
        house: usize,
        board: &Board,
        work: &mut S::Scratch,
    ) -> Option<usize> {
        if rules.filter(house, board, &mut self.sets, &mut self.left, work) {
            Some(rules.scope_len(house))
        } else {
            Some(0)
        }
    }

    fn number(&self, i: usize) -> usize {
        i
    }

    fn kept(&self, _rules: &HouseRules<S>, _house: usize) -> &[u32] {
        &self.left
    }

    fn single(&mut self, _rules: &HouseRules<S>, _place: usize, _board: &Board) {}

    fn back(&mut self, _rules: &HouseRules<S>, _place: usize, _board: &Board) {}

    ghost stays_noted = { λ _ _ _ _ _ noted. noted };

    ghost made_for_smaller = { λ _ need had fits made. (
      le_trans fits.scope_in made.0,
      le_trans fits.scope_in made.1,
    ) };
}
