//! What a maker is asked for, and what it gives.

ghost use Rattle.std.specs.Prelude.{◌≡◌};
ghost use Rattle.maker_core.specs.declared.made.MakeFault.TheVariants.{Memory};

use grid_core::Grid;
use std::alloc::{AllocError, AllocFailed};
use thiserror::Error;

/// How long a maker may search.
#[derive(Clone, Copy, Debug, PartialEq, Eq)]
pub struct Limits {
    /// How many trials each verdict may take.
    pub budget: u64,
    /// How many fillings may be made.
    pub tries: u32,
}

/// Why a clue was left in a puzzle.
#[derive(Clone, Copy, Debug, PartialEq, Eq)]
pub enum Why {
    /// Without it there are two solutions.
    Needed,
    /// A search without it, maybe with more clues, gave up.
    Budget,
}

/// A clue that was left in a puzzle.
#[derive(Clone, Copy, Debug, PartialEq, Eq)]
pub struct Kept {
    /// The cell of the clue.
    pub place: usize,
    pub why: Why,
}

/// A puzzle, its one solution, and what is known of each of its clues.
#[derive(Drop)]
pub struct Made<P> {
    pub puzzle: P,
    pub answer: Grid,
    /// One for each clue that was left, by place; empty if clues are not thinned.
    pub kept: Vec<Kept>,
}

/// Why no puzzle was made.
#[derive(Clone, Copy, Debug, PartialEq, Eq, Error)]
pub enum MakeFault {
    #[error("a size outside the game's limits")]
    SizeRange,
    #[error("no try made a puzzle with one solution")]
    Exhausted,
    #[error("out of memory")]
    Memory,
}

impl From<AllocError> for MakeFault {
    ghost from_gives = { λ _ e. e ≡ Memory };

    fn from(_e: AllocError) -> MakeFault {
        MakeFault::Memory
    }
}

impl<T: Drop> From<AllocFailed<T>> for MakeFault {
    ghost from_gives = { λ _ e. e ≡ Memory };

    fn from(_e: AllocFailed<T>) -> MakeFault {
        MakeFault::Memory
    }
}
