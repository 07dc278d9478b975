//! Making puzzles of Pattern.

pub(crate) mod maker;
