//! Closing a board as its rules say, by plain visits: by a queue or by sweeps.

pub(crate) mod closer;
pub(crate) mod marking;
