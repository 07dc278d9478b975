//! The cells of a line: a column downwards, or a row rightwards.

ghost use Rattle.std.specs.Prelude.{◌≡◌, ℕ, ◌<◌, ◌*◌, length, slice_index};
ghost use Rattle.grid_core.specs.Lines.{line_places, lines_of};

use crate::line_clue::LONGEST;
use arrayvec::ArrayVec;
use grid_core::{Size, line_len, line_place};

/// The places of a line's cells.
#[tactic(auto, using(grid_core::proofs::RegionLemmas::line_laws))]
pub(crate) fn cells_of_line(size: Size, line: usize) -> ArrayVec<u32, LONGEST>
    requires { line < lines_of size }
    ensures places { result.items ≡ line_places size line }
    ensures inside { (k : ℕ) → k < length result.items
        → slice_index result.items k < size.w * size.h }
{
    let mut places = ArrayVec::new();
    for k in 0..line_len(size, line) {
        places.push(line_place(size, line, k) as u32);
    }
    places
}
