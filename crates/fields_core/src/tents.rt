//! Tents: its houses, its rules and its check.

pub(crate) mod cells;
pub(crate) mod check;
pub(crate) mod fault;
pub(crate) mod houses;
pub(crate) mod pairs;
pub(crate) mod rules;
pub(crate) mod tent_house;
pub(crate) mod touch;
