//! Houses that count the ones of their cells.

pub(crate) mod game;
pub(crate) mod house;
pub(crate) mod name;
pub(crate) mod names;
pub(crate) mod rules;
pub(crate) mod tally;
