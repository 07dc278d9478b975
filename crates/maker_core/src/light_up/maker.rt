//! The maker of Light Up.

ghost use Rattle.std.specs.Prelude.{◌≡◌, ◌≤◌, ◌↔◌, true, IsTrue, IfErr, IfOk};
ghost use Rattle.gameid_core.specs.Puzzles.{IsWide};
ghost use Rattle.maker_core.specs.Draws.{AreAll, LeavesGenerator};
ghost use Rattle.maker_core.specs.LightMaking.{IsLit, light_passes, light_rules_filled, IsLightUnmade, MakesLights, light_tries};
ghost use Rattle.maker_core.specs.Made.{HasOne};

use crate::light_up::filling::{LightFilling, fill_lights, puzzle_of};
use crate::made::{Limits, Made, MakeFault};
use crate::thinning::thin::thin;
use crate::thinning::unique::is_unique;
use crate::tries::{Fillings, first_passing};
use fields_core::LightRules;
use gameid_core::LightPuzzle;
use grid_core::Size;
use rand_core::Rng;
use std::alloc::{AllocError, Global};

/// Whether both sides are at least 2.
fn is_wide(size: Size) -> bool
    ensures { IsTrue result ↔ IsWide size }
{
    size.w() >= 2 && size.h() >= 2
}

/// Grids whose black cells are drawn one by one, and which are then lit up.
#[derive(Drop)]
struct LitGrids {
    size: Size,
    black: u8,
    limits: Limits,
    ghost wide: { IsWide size },
}

impl Fillings for LitGrids {
    type Filling = LightFilling;

    ghost tries = { λ t. light_tries t.size t.black t.limits };

    ghost known = { λ t filling passes. IsLit t.size filling
        × (passes ≡ true → HasOne (light_rules_filled t.size filling) t.limits.budget)
        × (t.black ≡ 100 → passes ≡ true) };

    fn draw<G: Rng>(&self, alloc: Global, rng: &mut G) -> Result<(LightFilling, bool), AllocError> {
        let filling = fill_lights(alloc, rng, self.size, self.black)?;
        let passes = is_alone(alloc, self.size, &filling, self.limits.budget)?;
        Ok((filling, passes))
    }
}

/// Whether the verdict of the filling's puzzle is one. That of black cells alone is.
#[tactic(auto, using(crate::proofs::LightMakings::black_laws))]
fn is_alone(
    alloc: Global,
    size: Size,
    filling: &LightFilling,
    budget: u64,
) -> Result<bool, AllocError>
    requires wide { IsWide size }
    requires lit { IsLit size filling.now }
    ensures verdict { IfOk result (λ alone. alone ≡ light_passes size budget filling.now) }
    ensures only { IfOk result
        (λ yes. yes ≡ true → HasOne (light_rules_filled size filling.now) budget) }
    ensures full { IfOk result (λ alone. AreAll 1 filling.now.black → alone ≡ true) }
{
    let puzzle = puzzle_of(alloc, size, filling)?;
    let rules = LightRules::for_search(alloc, &puzzle)?;
    is_unique(alloc, &rules, &filling.bulbs, budget)
}

/// A puzzle of Light Up with exactly one solution, which is `answer`: 1 at a bulb and 0 elsewhere.
///
/// Each try fills a grid. Each cell in turn is black if a draw below 100 is less than `black`. The white cells, listed by
/// place and shuffled, are then taken in turn. Each that neither holds nor sees a bulb gets one. Every black cell gets the
/// number of the bulbs beside it. The first filling whose puzzle the search finds to have one solution, within the budget
/// of trials, is taken. One of black cells alone passes, so with `black` 100 the first try does.
///
/// The numbers are then tried once each, in a shuffled order. Each is taken away if the search still finds one solution.
/// `kept` has an entry for each number that is left, by place. `Needed` says that there are two solutions without the
/// number. `Budget` says that a search without it, maybe with more of them, gave up.
///
/// The generator is left where the last filling, and then the shuffle of the numbers, left it.
///
/// # Errors
///
/// `SizeRange` if a side is below 2, tested first. `Exhausted` if no filling of the tries passes, and at once if there are
/// no tries. `Memory` if memory was refused.
#[tactic(auto, using(crate::proofs::LightMakings::lit_laws))]
pub fn make_lights<G: Rng>(
    alloc: Global,
    size: Size,
    black: u8,
    rng: &mut G,
    limits: Limits,
) -> Result<Made<LightPuzzle>, MakeFault>
    requires { black ≤ 100 }
    ensures made { IfOk result (MakesLights size black limits (G.stream rng.old)) }
    ensures unmade { IfErr result (IsLightUnmade size black limits (G.stream rng.old)) }
    ensures leaves { LeavesGenerator (light_tries size black limits) G.stream
        rng.old rng.new result }
{
    if !is_wide(size) {
        return Err(MakeFault::SizeRange);
    }
    let grids = LitGrids {
        size,
        black,
        limits,
    };
    let filling = first_passing(alloc, &grids, rng, limits.tries)?;
    let puzzle = puzzle_of(alloc, size, &filling)?;
    Ok(thin(alloc, puzzle, filling.bulbs, rng, limits.budget)?)
}
