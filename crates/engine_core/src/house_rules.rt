//! Rules made of listed houses: what they do along the lists, for whatever game.
#![tactic(auto, using(crate::proofs::LawSets::house_rules_laws))]

ghost use Rattle.std.specs.Prelude.{◌<◌, ◌≡◌, ◌≤◌, IfOk, false, length, true};
ghost use Rattle.engine_core.specs.Common.{AreWokenAt, HasSetRoom, HasStruck, IsBoardOf, IsFiltered, SameShape, StillServes, after, has, needs_of, table_of, words_of};
ghost use Rattle.engine_core.specs.HouseList.{AreMarksOf};
ghost use Rattle.engine_core.specs.declared.mode.Mode.TheVariants.{Queue};

use crate::houses::table::{HouseTable, join_place};
use crate::houses::visit::{apply, gather};
use crate::mode::Mode;
use crate::notes::Noted;
use crate::rule_set::{RuleParts, RuleSet};
use crate::rules::Rules;
use crate::search::position::Searchable;
use crate::trail::position::TrailPosition;
use grid_core::{Board, Fixed, Grid};
use std::alloc::{AllocError, Global};

/// The rules of a puzzle, with the table of its houses, and how many values a full set has.
#[derive(Drop)]
pub struct HouseRules<S: RuleSet> {
    pub(crate) set: S,
    table: HouseTable,
    values: u8,
    ghost listed: { table ≡ table_of (S.system (S.puzzle_of set)) (S.scopes (S.puzzle_of set)) },
    ghost full: { values ≡ (S.system (S.puzzle_of set)).values },
}

/// What a visit works in: the sets of a house's cells, what is kept of them, and what decides it.
#[derive(Drop)]
pub struct HouseScratch<W: Drop> {
    sets: Fixed<u32>,
    kept: Fixed<u32>,
    work: W,
}

impl<S: RuleSet> HouseRules<S> {
    /// The rules of the puzzle. They keep a copy of it.
    pub fn new(alloc: Global, puzzle: &S::Puzzle) -> Result<HouseRules<S>, AllocError>
        ensures known { S.known puzzle.now }
        ensures copied { IfOk result (λ rules. S.puzzle_of rules.set ≡ puzzle.now) }
        ensures rules { IfOk result (λ rules. ⟦<HouseRules<S> as Rules>⟧.system rules
            ≡ S.system puzzle.now) }
    {
        let RuleParts {
            set,
            houses,
            cells,
            values,
        } = S::parts(alloc, puzzle)?;
        let table = HouseTable::of(alloc, cells, houses.freeze())?;
        Ok(HouseRules { set, table, values })
    }

    /// Reads the sets of the house's cells, and decides what a visit keeps of them, at the head of the two lists. Says whether
    /// anything may be struck; else nothing is.
    pub(crate) fn filter(
        &self,
        house: usize,
        board: &Board,
        sets: &mut [u32],
        kept: &mut [u32],
        work: &mut S::Scratch,
    ) -> bool
        requires house_in { house < (S.system (S.puzzle_of self.now.set)).houses }
        requires board_of { IsBoardOf (S.system (S.puzzle_of self.now.set)) board.now }
        requires sets_room { HasSetRoom (S.system (S.puzzle_of self.now.set)) house sets.old }
        requires kept_room { HasSetRoom (S.system (S.puzzle_of self.now.set)) house kept.old }
        requires served { S.serves work.old (needs_of (S.system (S.puzzle_of self.now.set))) }
        ensures filtered { IsFiltered (S.system (S.puzzle_of self.now.set)) house (has board.now)
            result sets.new kept.new }
        ensures keeps { StillServes S.serves work.old work.new }
    {
        let places = self.table.list.places(house);
        let (sets, kept) = (&mut sets[..places.len()], &mut kept[..places.len()]);
        gather(board, places, sets);
        self.set.filter(house, sets, kept, work)
    }

    /// Strikes from the house what it strikes.
    fn strike(
        &self,
        house: usize,
        board: &mut Board,
        sets: &mut [u32],
        kept: &mut [u32],
        work: &mut S::Scratch,
    ) -> bool
        requires house_in { house < (S.system (S.puzzle_of self.now.set)).houses }
        requires board_of { IsBoardOf (S.system (S.puzzle_of self.now.set)) board.old }
        requires sets_room { HasSetRoom (S.system (S.puzzle_of self.now.set)) house sets.old }
        requires kept_room { HasSetRoom (S.system (S.puzzle_of self.now.set)) house kept.old }
        requires served { S.serves work.old (needs_of (S.system (S.puzzle_of self.now.set))) }
        ensures left { has board.new
            ≡ after (S.system (S.puzzle_of self.now.set)) house (has board.old) }
        ensures shape { SameShape board.old board.new }
        ensures unchanged { result ≡ false → has board.new ≡ has board.old }
        ensures changed { result ≡ true → HasStruck (has board.old) (has board.new) }
        ensures keeps { StillServes S.serves work.old work.new }
    {
        let places = self.table.list.places(house);
        self.filter(house, board, sets, kept, work) && apply(board, places, &kept[..places.len()])
    }

    /// What decides a visit of a house.
    pub fn set(&self) -> &S
        ensures { result.now ≡ self.now.set }
    {
        &self.set
    }

    /// The places of the house.
    pub fn places(&self, house: usize) -> &[u32]
        requires { house < (S.system (S.puzzle_of self.now.set)).houses }
        ensures { result.now ≡ (S.system (S.puzzle_of self.now.set)).scope house }
    {
        self.table.list.places(house)
    }

    /// The marks of the houses that have each place, and how many words a place has.
    pub(crate) fn marks(&self) -> (&[u64], usize)
        ensures { AreMarksOf (S.system (S.puzzle_of self.now.set)) result.1 result.0.now }
    {
        self.table.marks()
    }

    /// Marks the houses that have the place.
    pub(crate) fn wake(&self, place: usize, waits: &mut [u64])
        requires place_in { place < (S.system (S.puzzle_of self.now.set)).cells }
        requires room { words_of (S.system (S.puzzle_of self.now.set)).houses ≤ length waits.old }
        ensures { AreWokenAt (S.system (S.puzzle_of self.now.set)) place waits.old waits.new }
    {
        let (marks, words) = self.marks();
        join_place(waits, marks, words, place);
    }
}

impl<S: RuleSet> Rules for HouseRules<S> {
    ghost use Rattle.std.specs.Prelude.{vec_len};
    ghost use Rattle.std.proofs.Common.{le_trans};

    type Scratch = HouseScratch<S::Scratch>;

    const SETTLED: bool = S::SETTLED;

    const MODE: Mode = Mode::Queue;

    ghost system = { λ r. S.system (S.puzzle_of r.set) };

    ghost SETTLED = { S.SETTLED };

    ghost MODE = { Queue };

    ghost serves = { λ w needs. (needs.scope ≤ vec_len w.sets) × (needs.scope ≤ vec_len w.kept)
        × S.serves w.work needs };

    ghost lawful = { λ r. S.lawful (S.puzzle_of r.set) (S.knows r.set) };

    ghost settled_is = { λ r. S.settled_is (S.puzzle_of r.set) };

    ghost mode_is = { λ r. S.by_queue (S.puzzle_of r.set) };

    ghost serves_smaller = { λ w need had f s. (
      le_trans f.scope_in s.0,
      le_trans f.scope_in s.1,
      S.serves_smaller w.work need had f s.2,
    ) };

    fn cells(&self) -> usize {
        self.table.cells()
    }

    fn values(&self) -> u8 {
        self.values
    }

    fn houses(&self) -> usize {
        self.table.list.len()
    }

    fn bound(&self) -> usize {
        self.table.list.total() * usize::from(self.values) + self.table.list.len()
    }

    fn scope_len(&self, house: usize) -> usize {
        self.table.list.places(house).len()
    }

    fn scope(&self, house: usize, k: usize) -> usize {
        self.table.list.places(house)[k] as usize
    }

    fn house_at(&self, place: usize, from: usize) -> Option<usize> {
        self.table.next_at(place, from)
    }

    fn start(&self, board: &mut Board) {
        self.set.start(board);
    }

    fn scratch(&self, alloc: Global) -> Result<HouseScratch<S::Scratch>, AllocError> {
        let room = self.longest();
        Ok(HouseScratch {
            sets: Fixed::copies(alloc, 0, room)?,
            kept: Fixed::copies(alloc, 0, room)?,
            work: self.set.scratch(alloc)?,
        })
    }

    fn visit(
        &self,
        house: usize,
        board: &mut Board,
        scratch: &mut HouseScratch<S::Scratch>,
    ) -> bool {
        let (sets, kept) = (&mut scratch.sets, &mut scratch.kept);
        self.strike(house, board, sets, kept, &mut scratch.work)
    }

    fn accept(&self, scratch: &mut HouseScratch<S::Scratch>, grid: &Grid) -> bool {
        self.set.accept(&mut scratch.work, grid)
    }
}

impl<S: Noted> Searchable for HouseRules<S> {
    type Position = TrailPosition<S>;
}
