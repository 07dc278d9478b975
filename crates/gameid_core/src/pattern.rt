//! Pattern: its puzzles, its game IDs and its printed grids.

pub(crate) mod black_runs;
pub(crate) mod clues;
pub(crate) mod grids;
pub(crate) mod id;
pub(crate) mod puzzle;
