//! The lines of a grid, and what is counted of them.

pub(crate) mod ones;
