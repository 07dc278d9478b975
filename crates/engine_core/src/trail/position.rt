//! A board of sets with its trail, as a position.
#![tactic(auto, using(crate::proofs::LawSets::position_laws))]

ghost use Rattle.std.specs.Prelude.{◌<◌, ◌≡◌, ◌≤◌, ◌+◌, IfOk, IfSome, length};
ghost use Rattle.engine_core.specs.Common.{cells_of, max_cells, max_values, IsTrailUnderWay, standing_of, words_of, IsAlive, IsClosedIn, IsTaken, IsBoardOf, IsAlong, AreHousesRested, GoesOn, IsStep, board_in, AreRestedBut};

use crate::house_rules::HouseRules;
use crate::mode::{Closing, Taken};
use crate::needs::{Needs, needs_for};
use crate::notes::{Noted, Notes};
use crate::rule_set::RuleSet;
use crate::rules::Rules;
use crate::search::position::Position;
use crate::trail::cells::{best_cell, least_value, write_grid};
use crate::trail::noting::{put_back, wake_since};
use crate::trail::trailed::TrailedBoard;
use crate::waits::{dequeue, dequeue_if, next_around};
use grid_core::{Board, Fixed, Grid};
use std::alloc::{AllocError, Global};
use std::marker::Model;

/// With no more values than this, houses in which a cell gets its last value come first after a trial alone.
const FEW_VALUES: u8 = 6;

/// Marks the houses that a closing begins with: those that have the place, or where none is named all.
fn wait_from<S: RuleSet>(rules: &HouseRules<S>, from: Option<usize>, waits: &mut [u64])
    requires place_in { IfSome from (λ place. place
        < (S.system (S.puzzle_of rules.now.set)).cells) }
    requires room { words_of (S.system (S.puzzle_of rules.now.set)).houses ≤ length waits.old }
    ensures { AreRestedBut (S.system (S.puzzle_of rules.now.set)) from waits.new }
{
    match from {
        None => waits.fill(u64::MAX),
        Some(place) => {
            waits.fill(0);
            rules.wake(place, waits);
        }
    }
}

/// A board with its trail. With it go what the rules work in and what they note beside it, a mark for each house that waits,
/// and one for each that is to come first.
#[derive(Drop)]
pub struct TrailPosition<S: Noted> {
    made: Needs,
    work: S::Scratch,
    notes: S::Notes,
    waits: Fixed<u64>,
    first: Fixed<u64>,
    trailed: TrailedBoard,
}

impl<S: Noted> Model for TrailPosition<S> {
    ghost use Rattle.engine_core.specs.Common.{needs_in, Placed, IsPlaced};

    ghost Value = { Placed S.Notes };

    ghost view = { λ s. record {
      made = needs_in s.made;
      trail = s.trailed;
      waits = s.waits.items;
      notes = s.notes;
    } };

    ghost invariant = { λ s. IsPlaced (needs_in s.made) s.trailed.board s.waits.items s.first.items
        × S.serves s.work (needs_in s.made) × S.Notes.made_for s.notes (needs_in s.made) };
}

impl<S: Noted> TrailPosition<S> {
    /// Visits the house, and marks the houses of each cell that lost a value in place of the house. Says whether the visit
    /// would leave a cell without a value: then what it left is open.
    fn step(&mut self, rules: &HouseRules<S>, house: usize, notes_last: bool) -> bool
        requires along { IsAlong (S.Notes.noted (S.puzzle_of rules.now.set))
            (S.system (S.puzzle_of rules.now.set)) self.old }
        requires alive { IsAlive (S.system (S.puzzle_of rules.now.set)) (board_in self.old) }
        requires house_in { house < (S.system (S.puzzle_of rules.now.set)).houses }
        ensures step { IsStep (S.system (S.puzzle_of rules.now.set)) house self.old self.new
            result }
        ensures along { IsAlong (S.Notes.noted (S.puzzle_of rules.now.set))
            (S.system (S.puzzle_of rules.now.set)) self.new }
        ensures onward { GoesOn self.old self.new }
    {
        dequeue(&mut self.waits, house);
        let board = self.trailed.board();
        let Some(count) = self.notes.visit(rules, house, board, &mut self.work) else {
            return true;
        };
        if count == 0 {
            return false;
        }
        let before = self.trailed.len();
        if self.trailed.strike(rules, house, &self.notes, count) {
            return true;
        }
        let waits: &mut [u64] = &mut self.waits;
        wake_since(
            rules,
            &self.trailed,
            before,
            &mut self.notes,
            waits,
            &mut self.first,
            notes_last,
        );
        dequeue_if(waits, house, S::SETTLED);
        false
    }

    /// Where to go on after a visit of the house: at the house after it, or at one in which a cell has got its last value, if
    /// these come first.
    fn next_from(&mut self, rules: &HouseRules<S>, house: usize, singles_first: bool) -> usize
        requires along { IsAlong (S.Notes.noted (S.puzzle_of rules.now.set))
            (S.system (S.puzzle_of rules.now.set)) self.old }
        requires house_in { house < (S.system (S.puzzle_of rules.now.set)).houses }
        ensures same { self.new ≡ self.old }
        ensures within { result ≤ (S.system (S.puzzle_of rules.now.set)).houses }
    {
        let first: &mut [u64] = &mut self.first;
        dequeue(first, house);
        if !singles_first {
            return house + 1;
        }
        next_around(first, house + 1, rules.houses()).unwrap_or(house + 1)
    }

    /// Closes the board: goes around over the houses that wait and visits each, until none waits or a cell has no value. After
    /// the last house it begins again. At first each house waits that strikes anything; it may be more. Houses in which a cell
    /// gets its last value can come first. With many values they do so once it has begun again.
    fn run(&mut self, rules: &HouseRules<S>, mut singles_first: bool) -> Taken
        requires along { IsAlong (S.Notes.noted (S.puzzle_of rules.now.set))
            (S.system (S.puzzle_of rules.now.set)) self.old }
        requires alive { IsAlive (S.system (S.puzzle_of rules.now.set)) (board_in self.old) }
        requires rested { AreHousesRested (S.system (S.puzzle_of rules.now.set)) self.old }
        ensures taken { IsTaken (S.system (S.puzzle_of rules.now.set)) (board_in self.old)
            (board_in self.new) result.closing }
        ensures turns { IsClosedIn (S.system (S.puzzle_of rules.now.set)) (board_in self.old)
            result.turns }
        ensures along { IsAlong (S.Notes.noted (S.puzzle_of rules.now.set))
            (S.system (S.puzzle_of rules.now.set)) self.new }
        ensures onward { GoesOn self.old self.new }
    {
        let is_many = rules.values() > FEW_VALUES;
        let mut turns = 0;
        let mut from = 0;
        while let Some(house) = next_around(&self.waits, from, rules.houses()) {
            singles_first |= is_many && house < from;
            turns += 1;
            if self.step(rules, house, is_many || singles_first) {
                return Taken {
                    closing: Closing::Dead,
                    turns,
                };
            }
            from = self.next_from(rules, house, singles_first);
        }
        Taken {
            closing: Closing::Open,
            turns,
        }
    }
}

impl<S: Noted> Position<HouseRules<S>> for TrailPosition<S> {
    ghost stands = { λ s. standing_of s };

    ghost room = { λ s. record { needs = s.made; trail = length s.trail.changes } };

    ghost walks = { λ rules s. IsTrailUnderWay (S.Notes.noted (S.puzzle_of rules.set))
        (S.system (S.puzzle_of rules.set)) s };

    fn new(alloc: Global, rules: &HouseRules<S>) -> Result<TrailPosition<S>, AllocError> {
        let made = needs_for(rules);
        Ok(TrailPosition {
            made,
            work: rules.set.scratch(alloc)?,
            notes: Notes::new(alloc, rules)?,
            waits: Fixed::copies(alloc, 0u64, made.houses / 64 + 1)?,
            first: Fixed::copies(alloc, 0u64, made.houses / 64 + 1)?,
            trailed: TrailedBoard::new(alloc, made.cells, made.values)?,
        })
    }

    fn changes(&self) -> usize {
        self.trailed.changes.len()
    }

    fn len(&self) -> usize {
        self.trailed.len()
    }

    fn begin(&mut self, rules: &HouseRules<S>) {
        self.trailed.start(rules);
        self.notes.begin(rules, self.trailed.board());
    }

    fn close(&mut self, rules: &HouseRules<S>, from: Option<usize>) -> Taken {
        if from.is_none() && self.trailed.board().has_empty_cell() {
            return Taken {
                closing: Closing::Dead,
                turns: 0,
            };
        }
        self.first.fill(0);
        wait_from(rules, from, &mut self.waits);
        self.run(rules, from.is_some())
    }

    fn pick(&self, rules: &HouseRules<S>, from: usize) -> Option<usize> {
        best_cell(self.trailed.board(), from, rules.cells())
    }

    fn next_value(&self, rules: &HouseRules<S>, cell: usize, from: u8) -> Option<u8> {
        least_value(self.trailed.board(), cell, from, rules.values())
    }

    fn leave(&mut self, rules: &HouseRules<S>, cell: usize, value: u8) {
        self.trailed.leave_one(rules, cell, value);
        self.notes.single(rules, cell, self.trailed.board());
    }

    fn undo(&mut self, rules: &HouseRules<S>, mark: usize) {
        put_back(rules, &mut self.notes, &mut self.trailed, mark);
    }

    fn accept(&mut self, rules: &HouseRules<S>, grid: &mut Grid) -> bool {
        write_grid(self.trailed.board(), rules.cells(), grid);
        rules.set.completes(&mut self.work, grid)
    }

    ghost inside = { λ rules s walks. walks.inside };
}
