//! Pieces of text that readers and writers share.

pub(crate) mod number;
pub(crate) mod piece;
pub(crate) mod runs;
pub(crate) mod writing;
