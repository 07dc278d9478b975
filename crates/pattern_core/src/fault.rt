//! Which rule a grid breaks.

/// A line whose black runs are not its clue.
#[derive(Clone, Copy, PartialEq, Eq, Debug)]
pub enum PatternFault {
    /// The column with this number, from the left.
    Column(usize),
    /// The row with this number, from the top.
    Row(usize),
}
