//! Percentages.
ghost use Rattle.std.specs.Prelude.{◌≤◌};

/// All of a hundred.
pub const MOST_PERCENT: u8 = 100;

/// So many of a hundred.
#[derive(Clone, Copy)]
pub struct Percent {
    pub value: u8,
    ghost within: { value ≤ 100 },
}
