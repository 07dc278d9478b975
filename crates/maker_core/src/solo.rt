//! Making puzzles of Solo.

pub(crate) mod filling;
pub(crate) mod flip;
pub(crate) mod maker;
pub(crate) mod x_filling;
