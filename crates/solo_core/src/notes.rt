//! What a search of a puzzle of Solo keeps beside its board.
#![tactic(auto, using(crate::proofs::LawSets::notes_laws))]

ghost use Rattle.std.specs.Prelude.{length, vec_len};
ghost use Rattle.std.proofs.Common.{le_trans};
ghost use Rattle.solo_core.specs.OpenBoards.{AreNotesOf, HasRoomFor};
ghost use Rattle.solo_core.specs.OpenLaws.{noted-kept, room-smaller};

use crate::rule_sets::{Crossings, SoloFillings};
use crate::visits::gather::visit_open;
use crate::visits::notes::{close_at, note_board, open_at};
use crate::visits::open::OpenHouse;
use crate::visits::spots::SpotTable;
use engine_core::{HouseRules, Notes, PlainNotes, Rules};
use grid_core::{Board, Fixed, Pairing};
use std::alloc::{AllocError, Global};

/// Which cells and values of each house are open: a cell that has one value is closed, and so is that value in its houses. A
/// visit looks at open cells alone. With them go the places of each cell in its houses, and what the last visit kept and listed.
#[derive(Drop)]
pub struct OpenNotes {
    houses: Fixed<OpenHouse>,
    spots: SpotTable,
    kept: Fixed<u32>,
    rest: Fixed<u8>,
}

impl Notes<SoloFillings> for OpenNotes {
    ghost noted = { λ puzzle board notes. AreNotesOf puzzle board notes.houses.items notes.spots };

    ghost made_for = { λ notes needs. HasRoomFor (vec_len notes.houses) (length notes.spots.spots)
        (vec_len notes.kept) (vec_len notes.rest) needs };

    ghost numbers = { λ notes. notes.rest.items };

    ghost kept_at = { λ notes _. notes.kept.items };

    fn new(alloc: Global, rules: &HouseRules<SoloFillings>) -> Result<OpenNotes, AllocError> {
        let values = usize::from(rules.values());
        let house = OpenHouse {
            cells: 0,
            values: 0,
        };
        Ok(OpenNotes {
            houses: Fixed::copies(alloc, house, rules.houses())?,
            spots: SpotTable::new(alloc, rules.cells())?,
            kept: Fixed::copies(alloc, 0u32, values)?,
            rest: Fixed::copies(alloc, 0u8, values)?,
        })
    }

    fn begin(&mut self, rules: &HouseRules<SoloFillings>, board: &Board) {
        let puzzle = &rules.set().puzzle;
        self.spots.fit(puzzle);
        note_board(&mut self.houses, &self.spots, puzzle, board);
    }

    fn visit(
        &mut self,
        rules: &HouseRules<SoloFillings>,
        house: usize,
        board: &Board,
        work: &mut Pairing,
    ) -> Option<usize> {
        let (values, places, open) = (rules.values(), rules.places(house), self.houses[house]);
        if open.cells == 0 {
            return Some(0);
        }
        visit_open(
            values,
            board,
            places,
            open,
            &mut self.kept,
            &mut self.rest,
            work,
        )
    }

    fn number(&self, i: usize) -> usize {
        usize::from(self.rest[i])
    }

    fn kept(&self, _rules: &HouseRules<SoloFillings>, _house: usize) -> &[u32] {
        &self.kept
    }

    fn single(&mut self, rules: &HouseRules<SoloFillings>, place: usize, board: &Board) {
        close_at(
            &mut self.houses,
            &self.spots,
            &rules.set().puzzle,
            place,
            board,
        );
    }

    fn back(&mut self, rules: &HouseRules<SoloFillings>, place: usize, board: &Board) {
        open_at(
            &mut self.houses,
            &self.spots,
            &rules.set().puzzle,
            place,
            board,
        );
    }

    ghost stays_noted = { λ puzzle notes K L keeps noted. noted-kept puzzle keeps noted };

    ghost made_for_smaller = { λ notes need had fits made. room-smaller fits made };
}

/// No notes, for rules with crossings.
#[derive(Drop)]
pub struct CrossingNotes {
    plain: PlainNotes,
}

impl Notes<Crossings> for CrossingNotes {
    ghost noted = { λ _ _ _. Unit {0} };

    ghost made_for = { λ notes needs. ⟦<PlainNotes as Notes<Crossings>>⟧.made_for notes.plain
        needs };

    ghost numbers = { λ notes. ⟦<PlainNotes as Notes<Crossings>>⟧.numbers notes.plain };

    ghost kept_at = { λ notes house. ⟦<PlainNotes as Notes<Crossings>>⟧.kept_at notes.plain
        house };

    fn new(alloc: Global, rules: &HouseRules<Crossings>) -> Result<CrossingNotes, AllocError> {
        Ok(CrossingNotes {
            plain: <PlainNotes as Notes<Crossings>>::new(alloc, rules)?,
        })
    }

    fn begin(&mut self, _rules: &HouseRules<Crossings>, _board: &Board) {}

    fn visit(
        &mut self,
        rules: &HouseRules<Crossings>,
        house: usize,
        board: &Board,
        work: &mut Pairing,
    ) -> Option<usize> {
        self.plain.visit(rules, house, board, work)
    }

    fn number(&self, i: usize) -> usize {
        <PlainNotes as Notes<Crossings>>::number(&self.plain, i)
    }

    fn kept(&self, rules: &HouseRules<Crossings>, house: usize) -> &[u32] {
        self.plain.kept(rules, house)
    }

    fn single(&mut self, _rules: &HouseRules<Crossings>, _place: usize, _board: &Board) {}

    fn back(&mut self, _rules: &HouseRules<Crossings>, _place: usize, _board: &Board) {}

    ghost stays_noted = { λ _ _ _ _ _ noted. noted };

    ghost made_for_smaller = { λ _ need had fits made. (
      le_trans fits.scope_in made.0,
      le_trans fits.scope_in made.1,
    ) };
}
