//! Planes of Tents: what is kept of a puzzle, which houses wait, and closings by sweeps.

pub(crate) mod lines;
pub(crate) mod squares;
pub(crate) mod sweep;
pub(crate) mod tent_notes;
pub(crate) mod three_rows;
pub(crate) mod trees;
pub(crate) mod waits;
