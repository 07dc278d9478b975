//! How a run ends: the status of its answer, or why it stopped before that was whole.
ghost use Rattle.std.specs.Prelude.{◌≡◌};
ghost use Rattle.commands.specs.Answers.{IsGreater, code_of, status_of};
ghost use Rattle.commands.specs.declared.answers.status.Stop.TheVariants.{Memory};

use std::alloc::AllocError;
use thiserror::Error;

/// The status of a run that wanted memory.
pub const NO_MEMORY: u8 = 5;

/// The status of a run that met a failing end.
pub const BROKEN: u8 = 6;

/// The status of an answer that is whole.
#[derive(Clone, Copy)]
pub enum Status {
    /// One solution, a correct grid, a grade or a made puzzle.
    Fine,
    /// No solution, or a wrong grid.
    Wrong,
    /// Words, an ID, a size or a grid that is refused.
    Refused,
    /// Two solutions or more.
    Several,
    /// The budget or the tries were used up.
    GaveUp,
}

impl Status {
    /// The number that the run ends with.
    pub fn code(self) -> u8
        ensures { result ≡ code_of self }
    {
        match self {
            Status::Fine => 0,
            Status::Wrong => 1,
            Status::Refused => 2,
            Status::Several => 3,
            Status::GaveUp => 4,
        }
    }

    /// The one of two statuses that has the greater number.
    pub fn greater(self, other: Status) -> Status
        ensures { IsGreater self other result }
    {
        if self.code() < other.code() {
            other
        } else {
            self
        }
    }
}

/// Why a run ended before its answer was whole.
#[derive(Debug, Drop, Error)]
pub enum Stop {
    /// Memory was wanted.
    #[error("out of memory")]
    Memory,
    /// An end failed.
    #[error("a read or write fault")]
    Broken,
}

/// How a step of a run ends: with the status of its answer, or before that was whole.
pub type RunResult = Result<Status, Stop>;

impl Stop {
    /// The status of a run that ended so.
    pub fn code(self) -> u8
        ensures { result ≡ status_of self }
    {
        match self {
            Stop::Memory => NO_MEMORY,
            Stop::Broken => BROKEN,
        }
    }
}

impl From<AllocError> for Stop {
    ghost from_gives = { λ _ e. e ≡ Memory };

    fn from(_error: AllocError) -> Stop {
        Stop::Memory
    }
}
