//! The fillings that a maker tries, and the first of them that passes.

ghost use Rattle.std.specs.Prelude.{◌≡◌, ◌≢◌, ◌<◌, ℕ, Bool, false, true, Err, IfOk};
ghost use Rattle.maker_core.specs.declared.made.MakeFault.TheVariants.{Exhausted, SizeRange};
ghost use Rattle.maker_core.specs.Draws.{AllDrawn, AllFail, IsDrawnBy, IsFirstDrawn, Tries, filling_at};

use crate::made::MakeFault;
use rand_core::Rng;
use std::alloc::{AllocError, Global};

/// What a maker tries: fillings that it draws, of which some pass.
pub(crate) trait Fillings {
    type Filling: Drop;

    // How they are drawn, which pass, and how many are tried.
    ghost tries: { Self → Tries Self.Filling };

    // What is known of a filling that passes, or of one that doesn't.
    ghost known: { Self → Self.Filling → Bool → Type 0 };

    /// The next filling, and whether it passes.
    fn draw<G: Rng>(&self, alloc: Global, rng: &mut G) -> Result<(Self::Filling, bool), AllocError>
        ensures drawn { IfOk result
            (λ m. IsDrawnBy (tries self.now).make G.stream rng.old rng.new m.0) }
        ensures verdict { IfOk result (λ made. made.1 ≡ (tries self.now).passes made.0) }
        ensures known { IfOk result (λ made. known self.now made.0 made.1) };
}

/// The first of so many fillings that passes, or `Exhausted`. The generator is left where the last filling left it.
#[tactic(auto, unfolding(crate::specs::Draws::stream_after))]
pub(crate) fn first_passing<F: Fillings, G: Rng>(
    alloc: Global,
    fillings: &F,
    rng: &mut G,
    tries: u32,
) -> Result<F::Filling, MakeFault>
    requires { tries ≡ (F.tries fillings.now).count }
    ensures first { IfOk result (IsFirstDrawn (F.tries fillings.now) G.stream rng.old rng.new) }
    ensures known { IfOk result (λ filling. F.known fillings.now filling true) }
    ensures in_range { result ≢ Err SizeRange }
    ensures no_tries { tries ≡ 0 → result ≡ Err Exhausted }
    ensures exhausted { result ≡ Err Exhausted
        → AllFail (F.tries fillings.now) (G.stream rng.old) }
    ensures failed { result ≡ Err Exhausted → (k : ℕ) → k < tries
        → F.known fillings.now (filling_at (F.tries fillings.now).make k (G.stream rng.old)) false }
    ensures drawn { result ≡ Err Exhausted
        → AllDrawn (F.tries fillings.now) G.stream rng.old rng.new }
{
    for _attempt in 0..tries {
        let (filling, passes) = fillings.draw(alloc, rng)?;
        if passes {
            return Ok(filling);
        }
    }
    Err(MakeFault::Exhausted)
}
