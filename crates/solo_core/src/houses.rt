//! The houses of a puzzle and its crossings: their names, and their places.

pub(crate) mod crossings;
pub(crate) mod house;
pub(crate) mod lists;
pub(crate) mod numbers;
pub(crate) mod places;
pub(crate) mod visit;
