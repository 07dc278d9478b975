//! Solo: its puzzles, its game IDs and its printed grids.

pub(crate) mod grids;
pub(crate) mod id;
pub(crate) mod puzzle;
