//! Making puzzles of Tents.

pub(crate) mod filling;
pub(crate) mod maker;
