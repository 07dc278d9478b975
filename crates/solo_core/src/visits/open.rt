//! Which cells and values of a house are open.
#![tactic(auto, using(crate::proofs::LawSets::open_laws))]

ghost use Rattle.std.specs.Prelude.{◌<◌, ◌≡◌, ℕ, true};
ghost use Rattle.solo_core.specs.Common.{has_bit as is_set};

use crate::visits::bits::{with_bit, without};

/// The open cells of a house, by their numbers in it, and the open values: a bit for each.
#[derive(Clone, Copy)]
pub(crate) struct OpenHouse {
    pub(crate) cells: u32,
    pub(crate) values: u32,
}

impl OpenHouse {
    ghost use Rattle.solo_core.specs.OpenHouses.{StaysOpenWith};

    /// The house after the cell, which has that set's one value, leaves it with the value. It stays where the value is not open.
    pub(crate) fn close(self, cell: usize, set: u32) -> OpenHouse
        requires { cell < 32 }
        ensures { StaysOpenWith cell set self result }
    {
        if self.values & set == 0 {
            return self;
        }
        OpenHouse {
            cells: without(self.cells, with_bit(0, cell)),
            values: without(self.values, set),
        }
    }

    /// The house after the cell, which has that set's one value, comes back with the value. It stays where the cell is open.
    pub(crate) fn reopen(self, cell: usize, set: u32) -> OpenHouse
        requires { cell < 32 }
        ensures stays { StaysOpenWith cell set self result }
        ensures here { is_set result.cells cell ≡ true }
        ensures grows { (j : ℕ) → is_set self.cells j ≡ true → is_set result.cells j ≡ true }
    {
        if self.cells & with_bit(0, cell) != 0 {
            return self;
        }
        OpenHouse {
            cells: with_bit(self.cells, cell),
            values: self.values | set,
        }
    }
}
