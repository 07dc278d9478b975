//! The cells of a house and their values as two sides to be paired.

ghost use Rattle.std.specs.Prelude.{◌≤◌, length, slice_index};
ghost use Rattle.grid_core.specs.Candidates.{max_values};
ghost use Rattle.solo_core.specs.Bits.{has_in};
ghost use Rattle.solo_core.specs.PeeledHouses.{AreCellsOf};

use crate::visits::bits::next_bit;
use grid_core::Edges;

/// More cells than a house has.
pub(crate) const MANY: usize = 32;

/// Some cells of a house as lefts and the values as rights: each of these cells is joined to the values of its set.
#[derive(Drop)]
pub(crate) struct CellValueGraph<'a> {
    pub(crate) sets: &'a [u32],
    pub(crate) rest: &'a [u8],
    pub(crate) values: u8,
    ghost few: { values ≤ max_values },
    ghost rest_in: { AreCellsOf sets.now rest.now },
}

impl Edges for CellValueGraph<'_> {
    ghost left_count = { λ e. length e.rest.now };

    ghost right_count = { λ e. e.values };

    ghost joins = { λ e l r. has_in e.sets.now (slice_index e.rest.now l) r };

    fn lefts(&self) -> usize {
        self.rest.len()
    }

    fn rights(&self) -> usize {
        usize::from(self.values)
    }

    fn next(&self, left: usize, from: usize) -> Option<usize> {
        next_bit(
            self.sets[usize::from(self.rest[left])],
            from,
            usize::from(self.values),
        )
    }
}
