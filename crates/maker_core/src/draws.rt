//! Draws from a generator, as fillings and thinnings use them.

ghost use Rattle.std.specs.Prelude.{◌<◌, IfOk, IsPermutation};
ghost use Rattle.std.specs.List.{range_with_len};
ghost use Rattle.maker_core.specs.Draws.{AreDrawnBy, IsDrawnBy, draw_below, shuffled_list, shuffled_order};
ghost use Rattle.maker_core.specs.SoloFilling.{IsOrder};

use rand::RngExt;
use rand::seq::SliceRandom;
use rand_core::Rng;
use std::alloc::{AllocError, Global};

/// A number below `n`.
pub(crate) fn draw<G: Rng>(rng: &mut G, n: u32) -> u32
    requires { 0 < n }
    ensures below { result < n }
    ensures drawn { IsDrawnBy (draw_below n) G.stream rng.old rng.new result }
{
    rng.random_range(0..n)
}

/// Brings the list to a shuffled order.
pub(crate) fn shuffle<G: Rng>(rng: &mut G, items: &mut Vec<usize>)
    ensures drawn { AreDrawnBy (shuffled_list items.old.items) G.stream rng.old rng.new items.new }
    ensures permutation { IsPermutation items.old.items items.new.items }
{
    items.shuffle(rng);
}

/// The numbers below `n` in a shuffled order.
#[tactic(auto, using(crate::proofs::WrittenGrids::range_more))]
pub(crate) fn order<G: Rng>(alloc: Global, rng: &mut G, n: usize) -> Result<Vec<usize>, AllocError>
    ensures drawn { IfOk result (AreDrawnBy (shuffled_order n) G.stream rng.old rng.new) }
    ensures ordered { IfOk result (λ v. IsOrder n v.items) }
    ensures permutation { IfOk result (λ v. IsPermutation (range_with_len 0 n) v.items) }
{
    let mut numbers = Vec::new(alloc);
    for number in 0..n {
        numbers.push(number)?;
    }
    shuffle(rng, &mut numbers);
    Ok(numbers)
}
