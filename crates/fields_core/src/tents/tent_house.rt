//! The kinds of houses of Tents.

/// The kinds of houses of Tents. Lines are told by their number, and trees by their place.
#[derive(Clone, Copy)]
pub enum TentHouse {
    /// A column.
    Column,
    /// A row.
    Row,
    /// The cells beside a tree that have none.
    Tree,
    /// A square of 2 by 2 cells, told by the place of its top left cell.
    Square,
}
