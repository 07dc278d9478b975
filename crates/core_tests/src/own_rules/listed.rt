//! A small rule set for the tests, by lists of houses: three cells of two values, and no two neighbours equal. The houses strike
//! nothing, so whether a grid is a solution is told by its test alone.

ghost use Rattle.std.specs.Prelude.{refl, true};
ghost use Rattle.core_tests.specs.Listed.{listed_rules, pairs};
ghost use Rattle.core_tests.specs.ListedLaws.{listed-lawful};

use engine_core::{HouseList, Noted, PlainNotes, RuleParts, RuleSet};
use grid_core::{Board, Grid};
use std::alloc::{AllocError, Global};

#[derive(Drop)]
pub struct Listed;

impl RuleSet for Listed {
    type Puzzle = ();

    type Scratch = ();

    const SETTLED: bool = true;

    ghost puzzle_of = { λ _. tt };

    ghost known = { λ _. Unit {0} };

    ghost system = { λ _. listed_rules };

    ghost scopes = { λ _. pairs };

    ghost SETTLED = { true };

    ghost serves = { λ _ _. Unit {0} };

    ghost knows = { λ _. tt };

    ghost lawful = { λ _ _. listed-lawful };

    ghost settled_is = { λ _. refl };

    ghost by_queue = { λ _. refl };

    ghost scopes_are = { λ _. record { as_many = refl; each = λ h. refl } };

    ghost bound_is = { λ _. refl };

    ghost serves_smaller = { λ _ _ _ _ served. served };

    fn parts(alloc: Global, _puzzle: &()) -> Result<RuleParts<Listed>, AllocError> {
        let mut houses = HouseList::new(alloc, 2, 4)?;
        houses.push(0)?;
        houses.push(1)?;
        houses.end()?;
        houses.push(1)?;
        houses.push(2)?;
        houses.end()?;
        Ok(RuleParts {
            set: Listed,
            houses,
            cells: 3,
            values: 2,
        })
    }

    fn start(&self, board: &mut Board) {
        board.fill();
    }

    fn scratch(&self, _alloc: Global) -> Result<(), AllocError> {
        Ok(())
    }

    fn filter(&self, _house: usize, _sets: &[u32], _kept: &mut [u32], _scratch: &mut ()) -> bool {
        false
    }

    fn accept(&self, _scratch: &mut (), grid: &Grid) -> bool {
        grid.get(0) != grid.get(1) && grid.get(1) != grid.get(2)
    }
}

impl Noted for Listed {
    type Notes = PlainNotes;
}
