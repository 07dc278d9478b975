//! Light Up: its houses, its rules and its check.

pub(crate) mod cells;
pub(crate) mod check;
pub(crate) mod fault;
pub(crate) mod houses;
pub(crate) mod light_house;
pub(crate) mod line;
pub(crate) mod rules;
pub(crate) mod sight;
