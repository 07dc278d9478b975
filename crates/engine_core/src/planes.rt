//! Searching on planes: boards of two values, a word for each row and each column.

pub(crate) mod lengths;
pub(crate) mod position;
pub(crate) mod rules;
