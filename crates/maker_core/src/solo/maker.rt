//! The maker of Solo.

ghost use Rattle.std.specs.Prelude.{◌≡◌, ◌↔◌, false, is_some, IsTrue, IfErr, IfOk, IfSome};
ghost use Rattle.maker_core.specs.Draws.{LeavesGenerator};
ghost use Rattle.maker_core.specs.SoloFilling.{IsFullSolution};
ghost use Rattle.maker_core.specs.SoloMaking.{IsSoloSize, IsSoloUnmade, MakesSolo, solo_tries};

use crate::made::{Limits, Made, MakeFault};
use crate::solo::filling::{fill_plain, full_puzzle};
use crate::solo::x_filling::fill_x;
use crate::thinning::thin::thin;
use crate::tries::{Fillings, first_passing};
use gameid_core::{MAX_NUMBERS, SoloPuzzle};
use grid_core::Grid;
use rand_core::Rng;
use std::alloc::{AllocError, Global};

/// A puzzle of Solo of `c` columns and `r` rows of sub-blocks with exactly one solution, which is `answer`. A cell holds
/// the number v as v - 1. With `x` it is one of Solo X, in which both diagonals, too, hold every number once.
///
/// A try of plain Solo shuffles a grid that has every number once in each row, column and block. Its numbers, bands of
/// `c` rows, rows in each band, stacks of `r` columns and columns in each stack are shuffled in turn. A try of Solo X
/// searches, with the budget, the puzzle whose top row is a shuffled list of the numbers, without other givens. By a draw
/// below 4 the first grid found is flipped left to right (1, 3) and top to bottom (2, 3). If no grid is found, nothing is
/// drawn and the try fails. A puzzle that gives all cells has one solution, found without a trial, so the first filling
/// is taken.
///
/// The givens are then tried once each, in a shuffled order. Each is taken away if the search still finds one solution.
/// `kept` has an entry for each given that is left, by place. `Needed` says that there are two solutions without the
/// given. `Budget` says that a search without it, maybe with more of them, gave up.
///
/// The generator is left where the last filling, and then the shuffle of the givens, left it.
///
/// # Errors
///
/// `SizeRange` if `c` or `r` is below 2 or there are more than 31 numbers, tested first. `Exhausted` if no try has a
/// filling: at once if there are no tries, and else in Solo X alone. `Memory` if memory was refused.
pub fn make_solo<G: Rng>(
    alloc: Global,
    c: u8,
    r: u8,
    x: bool,
    rng: &mut G,
    limits: Limits,
) -> Result<Made<SoloPuzzle>, MakeFault>
    ensures made { IfOk result (MakesSolo c r x limits (G.stream rng.old)) }
    ensures unmade { IfErr result (IsSoloUnmade c r x limits (G.stream rng.old)) }
    ensures leaves { LeavesGenerator (solo_tries c r x limits) G.stream rng.old rng.new result }
{
    if !is_size(c, r) {
        return Err(MakeFault::SizeRange);
    }
    let grids = SoloGrids { c, r, x, limits };
    let Some(answer) = first_passing(alloc, &grids, rng, limits.tries)? else {
        unreachable!()
    };
    let puzzle = full_puzzle(alloc, c, r, x, &answer)?;
    Ok(thin(alloc, puzzle, answer, rng, limits.budget)?)
}

/// Grids of a size, of plain Solo, or of Solo X if a search finds them.
#[derive(Drop)]
struct SoloGrids {
    c: u8,
    r: u8,
    x: bool,
    limits: Limits,
    ghost fits: { IsSoloSize c r },
}

impl Fillings for SoloGrids {
    type Filling = Option<Grid>;

    ghost tries = { λ t. solo_tries t.c t.r t.x t.limits };

    ghost known = { λ t filling passes. (passes ≡ is_some filling)
        × IfSome filling (IsFullSolution t.c t.r t.x) };

    /// Each grid passes: its puzzle, which gives all cells, has one solution.
    #[tactic(auto, using(crate::proofs::SoloSolution::found_passes))]
    fn draw<G: Rng>(&self, alloc: Global, rng: &mut G) -> Result<(Option<Grid>, bool), AllocError> {
        let filling = if self.x {
            fill_x(alloc, self.c, self.r, rng, self.limits.budget)?
        } else {
            Some(fill_plain(alloc, self.c, self.r, rng)?)
        };
        let passes = filling.is_some();
        Ok((filling, passes))
    }
}

/// Whether a puzzle can have so many columns and rows of sub-blocks.
fn is_size(c: u8, r: u8) -> bool
    ensures { IsTrue result ↔ IsSoloSize c r }
{
    c >= 2 && r >= 2 && u32::from(c) * u32::from(r) <= MAX_NUMBERS
}
