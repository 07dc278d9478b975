//! Making puzzles of Light Up.

pub(crate) mod filling;
pub(crate) mod maker;
