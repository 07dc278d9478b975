//! Count houses on planes, and what a search on planes stands on.

pub(crate) mod closing;
pub(crate) mod light_up;
pub(crate) mod rules;
pub(crate) mod tents;
pub(crate) mod visit;
