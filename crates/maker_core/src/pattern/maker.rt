//! The maker of Pattern.

ghost use Rattle.std.specs.Prelude.{◌≡◌, ◌≤◌, ◌*◌, ◌⊎◌, true, IfErr, IfOk};
ghost use Rattle.maker_core.specs.Below.{IsGrid, IsPatternSolution, line_rules};
ghost use Rattle.maker_core.specs.Draws.{LeavesGenerator};
ghost use Rattle.maker_core.specs.Made.{HasOne};
ghost use Rattle.maker_core.specs.PatternMaking.{IsPatternUnmade, MakesPattern, clued_by, pattern_tries};

use crate::black::draw_black;
use crate::made::{Limits, Made, MakeFault};
use crate::thinning::unique::is_unique;
use crate::tries::{Fillings, first_passing};
use gameid_core::PatternPuzzle;
use grid_core::{Grid, Size};
use pattern_core::PatternLines;
use rand_core::Rng;
use std::alloc::{AllocError, Global};

/// The puzzle with all clues of the grid.
#[tactic(auto, using(crate::proofs::PatternMakings::pattern_laws))]
pub(crate) fn puzzle_of(alloc: Global, size: Size, grid: &Grid) -> Result<PatternPuzzle, AllocError>
    requires { IsGrid (size.w * size.h) 2 grid.now }
    ensures puzzle { IfOk result (λ p. p ≡ clued_by size grid.now) }
    ensures solved { IfOk result (λ p. IsPatternSolution p grid.now) }
{
    PatternPuzzle::of_grid(alloc, size, grid)
}

/// Grids whose cells are drawn one by one.
#[derive(Drop)]
struct Bitmaps {
    size: Size,
    black: u8,
    limits: Limits,
}

impl Fillings for Bitmaps {
    type Filling = Grid;

    ghost tries = { λ t. pattern_tries t.size t.black t.limits };

    ghost known = { λ t g passes. IsGrid (t.size.w * t.size.h) 2 g
        × (passes ≡ true → HasOne (line_rules (clued_by t.size g)) t.limits.budget)
        × ((t.black ≡ 0) ⊎ (t.black ≡ 100) → passes ≡ true) };

    fn draw<G: Rng>(&self, alloc: Global, rng: &mut G) -> Result<(Grid, bool), AllocError> {
        let grid = draw_black(alloc, rng, self.size.cells(), self.black)?;
        let puzzle = puzzle_of(alloc, self.size, &grid)?;
        let rules = PatternLines::new(alloc, &puzzle)?;
        let passes = is_unique(alloc, &rules, &grid, self.limits.budget)?;
        Ok((grid, passes))
    }
}

/// A puzzle of Pattern with exactly one solution, which is `answer`: 0 for a white cell and 1 for a black one.
///
/// Each try fills a grid: each cell in turn is black if a draw below 100 is less than `black`. The clues are the runs of
/// its lines. The first filling whose puzzle the search finds to have one solution, within the budget of trials, is taken.
/// A grid of one colour passes, so with `black` 0 or 100 the first try does. `kept` is empty, since the clues are not
/// thinned.
///
/// The generator is left where the last filling left it.
///
/// # Errors
///
/// `Exhausted` if no filling of the tries passes, and at once if there are no tries. `Memory` if memory was refused.
pub fn make_pattern<G: Rng>(
    alloc: Global,
    size: Size,
    black: u8,
    rng: &mut G,
    limits: Limits,
) -> Result<Made<PatternPuzzle>, MakeFault>
    requires { black ≤ 100 }
    ensures made { IfOk result (MakesPattern size black limits (G.stream rng.old)) }
    ensures unmade { IfErr result (IsPatternUnmade size black limits (G.stream rng.old)) }
    ensures leaves { LeavesGenerator (pattern_tries size black limits) G.stream
        rng.old rng.new result }
{
    let bitmaps = Bitmaps {
        size,
        black,
        limits,
    };
    let answer = first_passing(alloc, &bitmaps, rng, limits.tries)?;
    let puzzle = puzzle_of(alloc, size, &answer)?;
    Ok(Made {
        puzzle,
        answer,
        kept: Vec::new(alloc),
    })
}
