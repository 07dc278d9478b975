//! The maker of Tents.

ghost use Rattle.std.specs.Prelude.{◌≡◌, ◌↔◌, ◌*◌, true, IsTrue, IfErr, IfOk};
ghost use Rattle.grid_core.specs.Grids.{IsGrid};
ghost use Rattle.maker_core.specs.Draws.{LeavesGenerator};
ghost use Rattle.maker_core.specs.Made.{HasOne};
ghost use Rattle.maker_core.specs.TentMaking.{IsSolvedFilling, tent_rules_filled, tents_pass, tents_puzzle_of, IsTentSize, IsTentsUnmade, MakesTents, tents_tries};

use crate::made::{Limits, Made, MakeFault};
use crate::tents::filling::{TentFilling, fill_tents};
use crate::thinning::unique::is_unique;
use crate::tries::{Fillings, first_passing};
use fields_core::TentRules;
use gameid_core::TentsPuzzle;
use grid_core::Size;
use rand_core::Rng;
use std::alloc::{AllocError, Global};

/// Whether both sides are at least 4.
fn is_tent_size(size: Size) -> bool
    ensures { IsTrue result ↔ IsTentSize size }
{
    size.w() >= 4 && size.h() >= 4
}

/// The puzzle of a filling: its trees, and how many tents each line has.
#[tactic(auto, using(crate::proofs::TentsSolved::tents_is))]
fn puzzle_of(alloc: Global, size: Size, filling: &TentFilling) -> Result<TentsPuzzle, AllocError>
    requires size { IsTentSize size }
    requires trees { IsGrid (size.w * size.h) 2 filling.now.trees }
    requires tents { IsGrid (size.w * size.h) 2 filling.now.tents }
    ensures { IfOk result (λ p. p ≡ tents_puzzle_of size filling.now) }
{
    TentsPuzzle::of_parts(alloc, size, &filling.trees, &filling.tents)
}

/// Fillings of Tents, each from a shuffled list of the cells.
#[derive(Drop)]
struct TentFillings {
    size: Size,
    limits: Limits,
    ghost fits: { IsTentSize size },
}

impl Fillings for TentFillings {
    type Filling = TentFilling;

    ghost tries = { λ t. tents_tries t.size t.limits };

    ghost known = { λ t filling passes. IsGrid (t.size.w * t.size.h) 2 filling.trees
        × IsGrid (t.size.w * t.size.h) 2 filling.tents × IsSolvedFilling t.size filling
        × (passes ≡ true → HasOne (tent_rules_filled t.size filling) t.limits.budget) };

    fn draw<G: Rng>(&self, alloc: Global, rng: &mut G) -> Result<(TentFilling, bool), AllocError> {
        let filling = fill_tents(alloc, rng, self.size)?;
        let passes = is_alone(alloc, self.size, &filling, self.limits.budget)?;
        Ok((filling, passes))
    }
}

/// Whether the verdict of the filling's puzzle is one.
#[tactic(auto, using(crate::proofs::TentsSolved::tents_size))]
fn is_alone(
    alloc: Global,
    size: Size,
    filling: &TentFilling,
    budget: u64,
) -> Result<bool, AllocError>
    requires size { IsTentSize size }
    requires trees { IsGrid (size.w * size.h) 2 filling.now.trees }
    requires tents { IsGrid (size.w * size.h) 2 filling.now.tents }
    ensures verdict { IfOk result (λ alone. alone ≡ tents_pass size budget filling.now) }
    ensures only { IfOk result
        (λ yes. yes ≡ true → HasOne (tent_rules_filled size filling.now) budget) }
{
    let puzzle = puzzle_of(alloc, size, filling)?;
    let rules = TentRules::for_search(alloc, &puzzle)?;
    is_unique(alloc, &rules, &filling.tents, budget)
}

/// A puzzle of Tents with exactly one solution, which is `answer`: 1 at a tent and 0 elsewhere.
///
/// Each try fills a grid. The cells, listed by place and shuffled, are taken in turn while fewer tents stand than a fifth
/// of the cells, rounded down. A cell is free if it has neither tree nor tent. One becomes a tent if it has no tree,
/// touches no tent and has a free cell beside it. Of its free cells (up, left, right, down) one that is drawn becomes a
/// tree. The numbers of the puzzle are the tents of each column and row. The first filling whose puzzle the search finds
/// to have one solution, within the budget of trials, is taken. `kept` is empty, since the clues are not thinned.
///
/// The generator is left where the last filling left it.
///
/// # Errors
///
/// `SizeRange` if a side is below 4, tested first. `Exhausted` if no filling of the tries passes, and at once if there are
/// no tries. `Memory` if memory was refused.
pub fn make_tents<G: Rng>(
    alloc: Global,
    size: Size,
    rng: &mut G,
    limits: Limits,
) -> Result<Made<TentsPuzzle>, MakeFault>
    ensures made { IfOk result (MakesTents size limits (G.stream rng.old)) }
    ensures unmade { IfErr result (IsTentsUnmade size limits (G.stream rng.old)) }
    ensures leaves { LeavesGenerator (tents_tries size limits) G.stream rng.old rng.new result }
{
    if !is_tent_size(size) {
        return Err(MakeFault::SizeRange);
    }
    let fillings = TentFillings { size, limits };
    let filling = first_passing(alloc, &fillings, rng, limits.tries)?;
    let puzzle = puzzle_of(alloc, size, &filling)?;
    Ok(Made {
        puzzle,
        answer: filling.tents,
        kept: Vec::new(alloc),
    })
}
