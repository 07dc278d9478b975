//! Whether a puzzle's search answers that one grid solves it.

ghost use Rattle.std.specs.Prelude.{◌≡◌, length, true, IfOk};
ghost use Rattle.maker_core.specs.Made.{HasOne, has_one};

use engine_core::{Searchable, Store, Verdict};
use grid_core::Grid;
use std::alloc::{AllocError, Global};

/// Whether the verdict of the rules with that budget is one. If a walk near the grid, a tenth as long, comes to two
/// solutions, nothing is searched.
#[tactic(auto, using(crate::proofs::FirstTries::two_have_none))]
pub(crate) fn is_unique<R: Searchable>(
    alloc: Global,
    rules: &R,
    grid: &Grid,
    budget: u64,
) -> Result<bool, AllocError>
    requires { length grid.now ≡ (R.system rules.now).cells }
    ensures verdict { IfOk result (λ unique. unique ≡ has_one (R.system rules.now) budget) }
    ensures only { IfOk result (λ yes. yes ≡ true → HasOne (R.system rules.now) budget) }
{
    let mut store = Store::new(alloc, rules)?;
    if store.finds_two(rules, grid, budget / 10) {
        return Ok(false);
    }
    match store.solve(rules, budget) {
        Verdict::One => Ok(true),
        Verdict::None | Verdict::Several | Verdict::GaveUp { .. } => Ok(false),
    }
}
