//! What is wrong with a grid of Tents.

/// A broken rule of Tents, with the lowest place, column or row at which it is broken.
#[derive(Clone, Copy, Debug, PartialEq, Eq)]
pub enum TentFault {
    /// A tent stands on a tree.
    Tree(usize),
    /// A tent touches another, at a side or a corner.
    Touch(usize),
    /// A column has not its number of tents.
    Column(usize),
    /// A row has not its number of tents.
    Row(usize),
    /// The tents can't be paired one to one with the trees so that each tent is beside its own tree.
    Match,
}
