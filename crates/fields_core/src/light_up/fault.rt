//! What is wrong with a grid of Light Up.

/// A broken rule of Light Up, with the lowest place at which it is broken.
#[derive(Clone, Copy, Debug, PartialEq, Eq)]
pub enum LightFault {
    /// A bulb stands on a black cell.
    Black(usize),
    /// A black cell has not as many bulbs beside it as its number says.
    Number(usize),
    /// A bulb sees another.
    Seen(usize),
    /// A white cell neither holds a bulb nor sees one.
    Dark(usize),
}
