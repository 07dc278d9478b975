//! A search of Pattern on planes: which lines wait, a visit of one, and the closing.

pub(crate) mod close;
pub(crate) mod filter;
pub(crate) mod rules;
pub(crate) mod visit;
pub(crate) mod waits;
