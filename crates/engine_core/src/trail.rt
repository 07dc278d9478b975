//! A board of sets with its trail: the position that a walk by rules of listed houses stands on, and that of a walk by any
//! rules.

pub(crate) mod cells;
pub(crate) mod noting;
pub(crate) mod plain;
pub(crate) mod position;
pub(crate) mod trailed;
