//! Planes of Light Up: what is kept of a puzzle, which houses wait, and closings by sweeps.

pub(crate) mod light_notes;
pub(crate) mod reach;
pub(crate) mod sweep;
pub(crate) mod tables;
pub(crate) mod visits;
pub(crate) mod waits;
