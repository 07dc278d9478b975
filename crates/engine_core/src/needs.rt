//! What rules need memory for.

ghost use Rattle.std.specs.Prelude.{◌≡◌};
ghost use Rattle.engine_core.specs.Common.{needs_of, needs_in};

use crate::rules::Rules;

/// What memory is taken for.
#[derive(Clone, Copy)]
pub struct Needs {
    pub cells: usize,
    pub values: u8,
    pub houses: usize,
    pub bound: usize,
    pub scope: usize,
}

/// What the rules need memory for.
pub fn needs_for<R: Rules>(rules: &R) -> Needs
    ensures { needs_in result ≡ needs_of (R.system rules.now) }
{
    Needs {
        cells: rules.cells(),
        values: rules.values(),
        houses: rules.houses(),
        bound: rules.bound(),
        scope: rules.longest(),
    }
}
