//! Why a grid is no solution of Solo.

/// The first broken rule: the givens come first, then the rows, the columns, the blocks and the diagonals, and of one
/// kind the lowest.
#[derive(Clone, Copy, PartialEq, Eq, Debug)]
pub enum SoloFault {
    /// The cell at this place doesn't hold its given.
    Given(usize),
    /// The row holds a number twice.
    Row(usize),
    /// The column holds a number twice.
    Column(usize),
    /// The block holds a number twice.
    Block(usize),
    /// The diagonal holds a number twice.
    Diagonal(usize),
}
