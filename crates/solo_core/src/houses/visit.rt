//! What a rule set may visit, by name.

use crate::houses::house::NamedHouse;

/// What is visited under a number: a house, or a block together with a row or a column that it meets.
#[derive(Clone, Copy, PartialEq, Eq, Debug)]
pub enum VisitName {
    /// A house.
    House(NamedHouse),
    /// A block, by its number, and a row or a column.
    Crossing {
        /// The block.
        block: usize,
        /// The row or the column.
        line: NamedHouse,
    },
}
