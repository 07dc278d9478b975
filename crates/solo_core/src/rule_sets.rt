//! The rule sets of Solo: which houses they have, and what a visit of one strikes.
#![tactic(auto, using(crate::proofs::LawSets::rule_sets_laws))]

ghost use Rattle.std.specs.Prelude.{◌≡◌, ◌≤◌, ◌++◌, IfOk, true, false, refl};
ghost use Rattle.std.proofs.Common.{arith};
ghost use Rattle.std.proofs.Props.{props};
ghost use Rattle.engine_core.specs.HouseList.{all_places};
ghost use Rattle.solo_core.specs.Common.{IsSolo, house_places};
ghost use Rattle.solo_core.specs.RuleLaws.{listed_in_rules, bound_of_rules, singles_lawful, houses_lawful, crossings_lawful};
ghost use Rattle.solo_core.specs.RuleSets.{single_houses, singles_rules, filled_houses, houses_rules, crossings_of, crossings_rules};

use crate::check::check_solo;
use crate::houses::crossings::{crossings, push_crossings};
use crate::houses::lists::list_houses;
use crate::houses::places::{cells, houses};
use crate::notes::{CrossingNotes, OpenNotes};
use crate::start::write_start;
use crate::visits::crossing::keep_crossed;
use crate::visits::houses::keep_houses;
use crate::visits::singles::keep_singles;
use engine_core::{HouseRules, Noted, PlainNotes, RuleParts, RuleSet};
use gameid_core::SoloPuzzle;
use grid_core::{Board, Grid, Pairing};
use std::alloc::{AllocError, Global};

/// The rules whose houses strike by single values and places.
pub type SoloSingles = HouseRules<Singles>;

/// The rules whose houses strike what no filling without repeat allows.
pub type SoloHouses = HouseRules<SoloFillings>;

/// The rules of houses, and of their crossings.
pub type SoloCrossings = HouseRules<Crossings>;

/// Strikes a value from a cell where another cell of the house has only that value, where the cell is the only place of
/// another value, and, of every cell, where some cell has no value or some value no place.
#[derive(Drop)]
pub struct Singles {
    puzzle: SoloPuzzle,
    ghost is_solo: { IsSolo puzzle } by { Prim.hlevel props },
}

/// Strikes what no filling of the house without repeat allows.
#[derive(Drop)]
pub struct SoloFillings {
    pub(crate) puzzle: SoloPuzzle,
    ghost is_solo: { IsSolo puzzle } by { Prim.hlevel props },
}

/// Strikes what no filling of a house without repeat allows; and in a block and a row or column that it meets, what has a
/// place in the one only where they meet, from the rest of the other.
#[derive(Drop)]
pub struct Crossings {
    puzzle: SoloPuzzle,
    ghost is_solo: { IsSolo puzzle } by { Prim.hlevel props },
}

impl RuleSet for Singles {
    type Puzzle = SoloPuzzle;

    type Scratch = ();

    const SETTLED: bool = false;

    ghost puzzle_of = { λ set. set.puzzle };

    ghost known = { IsSolo };

    ghost system = { singles_rules };

    ghost scopes = { λ p. all_places (single_houses p) };

    ghost SETTLED = { false };

    ghost serves = { λ _ _. Unit {0} };

    ghost knows = { λ set. set.is_solo };

    ghost lawful = { singles_lawful };

    ghost settled_is = { λ _. refl };

    ghost by_queue = { λ _. refl };

    ghost scopes_are = { λ p. listed_in_rules false p (single_houses p) };

    ghost bound_is = { λ p. bound_of_rules false p (single_houses p) };

    ghost serves_smaller = { λ _ _ _ _ served. served };

    fn parts(alloc: Global, puzzle: &SoloPuzzle) -> Result<RuleParts<Singles>, AllocError> {
        Ok(RuleParts {
            houses: list_houses(alloc, puzzle, 0)?,
            cells: cells(puzzle),
            values: puzzle.n(),
            set: Singles {
                puzzle: puzzle.copy(alloc)?,
            },
        })
    }

    fn start(&self, board: &mut Board) {
        write_start(&self.puzzle, board);
    }

    fn scratch(&self, _alloc: Global) -> Result<(), AllocError> {
        Ok(())
    }

    fn filter(&self, _house: usize, sets: &[u32], kept: &mut [u32], _scratch: &mut ()) -> bool {
        keep_singles(self.puzzle.n(), sets, kept);
        true
    }

    fn accept(&self, _scratch: &mut (), grid: &Grid) -> bool {
        check_solo(&self.puzzle, grid).is_none()
    }
}

impl RuleSet for SoloFillings {
    type Puzzle = SoloPuzzle;

    type Scratch = Pairing;

    const SETTLED: bool = true;

    ghost puzzle_of = { λ set. set.puzzle };

    ghost known = { IsSolo };

    ghost system = { houses_rules };

    ghost scopes = { λ p. all_places (filled_houses p) };

    ghost SETTLED = { true };

    ghost serves = { λ pairing needs. needs.values ≤ pairing.room };

    ghost knows = { λ set. set.is_solo };

    ghost lawful = { houses_lawful };

    ghost settled_is = { λ _. refl };

    ghost by_queue = { λ _. refl };

    ghost scopes_are = { λ p. listed_in_rules true p (filled_houses p) };

    ghost bound_is = { λ p. bound_of_rules true p (filled_houses p) };

    ghost serves_smaller = { λ pairing need had fits served. let same = fits.same_values in
        Prim.omega arith };

    fn parts(alloc: Global, puzzle: &SoloPuzzle) -> Result<RuleParts<SoloFillings>, AllocError> {
        Ok(RuleParts {
            houses: list_houses(alloc, puzzle, 0)?,
            cells: cells(puzzle),
            values: puzzle.n(),
            set: SoloFillings {
                puzzle: puzzle.copy(alloc)?,
            },
        })
    }

    fn start(&self, board: &mut Board) {
        write_start(&self.puzzle, board);
    }

    fn scratch(&self, alloc: Global) -> Result<Pairing, AllocError> {
        Pairing::new(alloc, usize::from(self.puzzle.n()))
    }

    fn filter(&self, _house: usize, sets: &[u32], kept: &mut [u32], work: &mut Pairing) -> bool {
        keep_houses(self.puzzle.n(), sets, kept, work)
    }

    fn accept(&self, _pairing: &mut Pairing, grid: &Grid) -> bool {
        check_solo(&self.puzzle, grid).is_none()
    }

    fn completes(&self, _pairing: &mut Pairing, _grid: &Grid) -> bool {
        true
    }
}

impl RuleSet for Crossings {
    type Puzzle = SoloPuzzle;

    type Scratch = Pairing;

    const SETTLED: bool = true;

    ghost puzzle_of = { λ set. set.puzzle };

    ghost known = { IsSolo };

    ghost system = { crossings_rules };

    ghost scopes = { λ p. all_places (filled_houses p ++ crossings_of p) };

    ghost SETTLED = { true };

    ghost serves = { λ pairing needs. needs.values ≤ pairing.room };

    ghost knows = { λ set. set.is_solo };

    ghost lawful = { crossings_lawful };

    ghost settled_is = { λ _. refl };

    ghost by_queue = { λ _. refl };

    ghost scopes_are = { λ p. listed_in_rules true p (filled_houses p ++ crossings_of p) };

    ghost bound_is = { λ p. bound_of_rules true p (filled_houses p ++ crossings_of p) };

    ghost serves_smaller = { λ pairing need had fits served. let same = fits.same_values in
        Prim.omega arith };

    fn parts(alloc: Global, puzzle: &SoloPuzzle) -> Result<RuleParts<Crossings>, AllocError> {
        let mut houses = list_houses(alloc, puzzle, crossings(puzzle))?;
        push_crossings(&mut houses, puzzle)?;
        Ok(RuleParts {
            houses,
            cells: cells(puzzle),
            values: puzzle.n(),
            set: Crossings {
                puzzle: puzzle.copy(alloc)?,
            },
        })
    }

    fn start(&self, board: &mut Board) {
        write_start(&self.puzzle, board);
    }

    fn scratch(&self, alloc: Global) -> Result<Pairing, AllocError> {
        Pairing::new(alloc, usize::from(self.puzzle.n()))
    }

    fn filter(&self, house: usize, sets: &[u32], kept: &mut [u32], pairing: &mut Pairing) -> bool {
        let count = houses(&self.puzzle);
        if house < count {
            return keep_houses(self.puzzle.n(), sets, kept, pairing);
        }
        keep_crossed(&self.puzzle, house - count, sets, kept);
        true
    }

    fn accept(&self, _pairing: &mut Pairing, grid: &Grid) -> bool {
        check_solo(&self.puzzle, grid).is_none()
    }
}

impl Noted for Crossings {
    type Notes = CrossingNotes;
}

impl Noted for Singles {
    type Notes = PlainNotes;
}

impl Noted for SoloFillings {
    type Notes = OpenNotes;
}
