//! Why a game ID is refused.

ghost use Rattle.std.specs.Prelude.{◌≡◌};
ghost use Rattle.gameid_core.specs.declared.id.fault.IdFault.TheVariants.{Memory};

use std::alloc::{AllocError, AllocFailed};
use thiserror::Error;

/// The first fault of a game ID, or want of memory. A place is the number of bytes of the ID before
/// it. Lines are the columns from the left, and then the rows from the top.
#[derive(Clone, Copy, Debug, PartialEq, Eq, Error)]
pub enum IdFault {
    #[error("the ID is too long")]
    TooLong,
    #[error("a seed in place of a description")]
    SeedId,
    #[error("no colon")]
    NoColon,
    #[error("no size before the colon")]
    BadSize,
    #[error("more than a size before the colon")]
    Variant,
    #[error("a size outside the game's limits")]
    SizeRange,
    #[error("a byte at {0} that cannot stand there")]
    BadByte(usize),
    #[error("a number at {0} outside its range")]
    NumberRange(usize),
    #[error("line {0} is too full")]
    LineTooFull(usize),
    #[error("the description ends too early")]
    TooFew,
    #[error("the description goes on too long")]
    TooMany,
    #[error("out of memory")]
    Memory,
}

impl From<AllocError> for IdFault {
    ghost from_gives = { λ _ e. e ≡ Memory };

    fn from(_e: AllocError) -> IdFault {
        IdFault::Memory
    }
}

impl<T: Drop> From<AllocFailed<T>> for IdFault {
    ghost from_gives = { λ _ e. e ≡ Memory };

    fn from(_e: AllocFailed<T>) -> IdFault {
        IdFault::Memory
    }
}
