//! The cells of a puzzle of Light Up.

/// A cell of a puzzle of Light Up.
#[derive(Clone, Copy, Debug, PartialEq, Eq)]
pub enum LightCell {
    White,
    Black,
    /// A black cell with a number from 0 to 4: how many bulbs stand beside it.
    Numbered(u8),
}
