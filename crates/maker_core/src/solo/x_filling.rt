//! The filling of Solo X.

ghost use Rattle.std.specs.Prelude.{◌≡◌, ◌*◌, ◌≤◌, true, Some, length, IfOk, IfSome};
ghost use Rattle.gameid_core.specs.Head.{max_numbers};
ghost use Rattle.maker_core.specs.SoloFilling.{IsOrder, IsFullSolution, IsShuffledPuzzle, top_row_given, lent_flipped, x_filling};
ghost use Rattle.maker_core.specs.SoloMaking.{IsSoloSize};
ghost use Rattle.maker_core.specs.Draws.{IsDrawnBy};

use crate::draws::{draw, order};
use crate::solo::flip::flip;
use engine_core::Store;
use gameid_core::SoloPuzzle;
use grid_core::Grid;
use rand_core::Rng;
use solo_core::SoloHouses;
use std::alloc::{AllocError, Global};

/// A grid of `c` columns and `r` rows of sub-blocks that keeps to the rules of Solo X. The puzzle whose top row is a
/// shuffled list of the numbers, without other givens, is searched with the budget. The first grid found is flipped left
/// to right, top to bottom, both ways or not at all, as a draw below 4 says. If no grid was found, none is given, and
/// nothing drawn after the shuffle. A cell holds the number v as v - 1.
///
/// # Errors
///
/// When memory was refused. The generator may have been drawn from then.
pub(crate) fn fill_x<G: Rng>(
    alloc: Global,
    c: u8,
    r: u8,
    rng: &mut G,
    budget: u64,
) -> Result<Option<Grid>, AllocError>
    requires { IsSoloSize c r }
    ensures filling { IfOk result (IsDrawnBy (x_filling c r budget) G.stream rng.old rng.new) }
    ensures solution { IfOk result (λ filling. IfSome filling (IsFullSolution c r true)) }
{
    let n = usize::from(c) * usize::from(r);
    let puzzle = shuffled_puzzle(alloc, c, r, rng)?;
    let rules = SoloHouses::new(alloc, &puzzle)?;
    let mut store = Store::new(alloc, &rules)?;
    store.solve(&rules, budget);
    flip_by_draw(alloc, rng, n, store.first())
}

/// The puzzle whose top row is a shuffled list of the numbers, and which has no other given.
fn shuffled_puzzle<G: Rng>(
    alloc: Global,
    c: u8,
    r: u8,
    rng: &mut G,
) -> Result<SoloPuzzle, AllocError>
    requires { IsSoloSize c r }
    ensures { IfOk result (IsShuffledPuzzle c r G.stream rng.old rng.new) }
{
    let n = usize::from(c) * usize::from(r);
    let numbers = order(alloc, rng, n)?;
    top_row_puzzle(alloc, c, r, &numbers)
}

/// The puzzle whose top row has these numbers, each below the number of columns, and which has no other given.
#[tactic(auto, using(crate::proofs::SoloXSearch::top_laws))]
fn top_row_puzzle(alloc: Global, c: u8, r: u8, numbers: &[usize]) -> Result<SoloPuzzle, AllocError>
    requires size { IsSoloSize c r }
    requires numbers { IsOrder (c * r) numbers.now }
    ensures { IfOk result (λ puzzle. puzzle ≡ top_row_given c r numbers.now) }
{
    let mut puzzle = SoloPuzzle::blank(alloc, c, r, true)?;
    for column in 0..numbers.len() {
        puzzle.set_given(column, numbers[column] as u8 + 1);
    }
    Ok(puzzle)
}

/// The grid that was found, if one was, flipped by a draw.
fn flip_by_draw<G: Rng>(
    alloc: Global,
    rng: &mut G,
    n: usize,
    found: Option<&Grid>,
) -> Result<Option<Grid>, AllocError>
    requires few { n ≤ max_numbers }
    requires cells { IfSome found (λ grid. length grid.now ≡ n * n) }
    ensures { IfOk result (IsDrawnBy (lent_flipped n found.entry) G.stream rng.old rng.new) }
{
    match found {
        Some(grid) => {
            let number = draw(rng, 4);
            let across = number == 1 || number == 3;
            let down = number == 2 || number == 3;
            Ok(Some(flip(alloc, n, grid, across, down)?))
        }
        None => Ok(None),
    }
}
