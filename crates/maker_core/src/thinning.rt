//! Taking clues away while one solution is left.

pub(crate) mod clued;
mod clues;
pub(crate) mod thin;
pub(crate) mod unique;
