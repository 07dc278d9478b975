//! Houses: a table of them, and the sets of their cells.

pub(crate) mod list;
pub(crate) mod table;
pub(crate) mod visit;
