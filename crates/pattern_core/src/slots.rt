//! Sets of slots, the places along a spelled clue, as words.
#![tactic(auto, using(crate::proofs::LineWords::slot_laws))]

ghost use Rattle.std.specs.Prelude.{◌≡◌, ℕ, ◌==◌};
ghost use Rattle.grid_core.specs.Words.{has_bit};

use grid_core::Word;

/// A set of slots.
pub(crate) trait Slots: Word {
    /// The first slot alone.
    fn first() -> Self
        ensures { (p : ℕ) → has_bit (Self.bits result) p ≡ (p == 0) };
}

impl Slots for u64 {
    fn first() -> u64 {
        1
    }
}

impl Slots for u128 {
    fn first() -> u128 {
        1
    }
}
