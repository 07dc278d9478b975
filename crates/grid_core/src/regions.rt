//! The places of the cells of a grid's rows, columns, blocks and diagonals, and of those beside a cell.
//! Rows, columns, blocks and the cells of each are counted from 0.
#![tactic(auto, using(crate::proofs::RegionLemmas::place_laws))]

ghost use Rattle.std.specs.Prelude.{◌≡◌, ◌+◌, ◌-◌, ◌*◌, ◌<◌, ◌==◌, if◌then◌else◌, slice_index, IfSome};
ghost use Rattle.std.specs.List.{slice_get};
ghost use Rattle.grid_core.specs.Regions.{row_places, column_places, block_places, diagonal_places, beside as beside_places, step as step_from};

use crate::size::Size;

/// The place of the `k`-th cell of the row from the left. A row has `w` cells.
pub fn row_place(size: Size, y: usize, k: usize) -> usize
    requires y_in { y < size.h }
    requires k_in { k < size.w }
    ensures place { result ≡ slice_index (row_places size y) k }
    ensures within { result < size.w * size.h }
{
    y * usize::from(size.w()) + k
}

/// The place of the `k`-th cell of the column from the top. A column has `h` cells.
pub fn column_place(size: Size, x: usize, k: usize) -> usize
    requires x_in { x < size.w }
    requires k_in { k < size.h }
    ensures place { result ≡ slice_index (column_places size x) k }
    ensures within { result < size.w * size.h }
{
    k * usize::from(size.w()) + x
}

/// The place of the `k`-th cell of the block, row by row, in a square grid of `c * r` columns.
/// Its blocks are `r` columns wide and `c` rows tall, `c` of them beside each other.
/// A block has `c * r` cells.
pub fn block_place(c: u8, r: u8, b: usize, k: usize) -> usize
    requires b_in { b < c * r }
    requires k_in { k < c * r }
    ensures place { result ≡ slice_index (block_places c r b) k }
    ensures within { result < (c * r) * (c * r) }
{
    let wide = usize::from(r);
    let tall = usize::from(c);
    let y = b / tall * tall + k / wide;
    let x = b % tall * wide + k % wide;
    y * (tall * wide) + x
}

/// The place of the `k`-th cell from the top of the diagonal in a square grid of `n` columns.
/// Diagonal 0 begins in the left column, diagonal 1 in the right one. A diagonal has `n` cells.
pub fn diagonal_place(n: u8, d: usize, k: usize) -> usize
    requires d_in { d < 2 }
    requires k_in { k < n }
    ensures place { result ≡ slice_index (diagonal_places n d) k }
    ensures within { result < n * n }
{
    let side = usize::from(n);
    let column = if d == 0 { k } else { side - 1 - k };
    k * side + column
}

/// The `k`-th of the cells that share a side with the place; `None` past the last of them.
/// They go in the order up, left, right, down of those that the grid has.
pub fn beside(size: Size, place: usize, k: usize) -> Option<usize>
    requires place_in { place < size.w * size.h }
    ensures cell { result ≡ slice_get (beside_places size place) k }
    ensures within { IfSome result (λ cell. cell < size.w * size.h) }
{
    let mut left = k;
    for direction in 0..4 {
        if let Some(cell) = step(size, place, direction) {
            if left == 0 {
                return Some(cell);
            }
            left -= 1;
        }
    }
    None
}

/// The cell one step away in the direction: 0 up, 1 left, 2 right, 3 down.
/// `None` where the grid ends.
pub fn step(size: Size, place: usize, direction: usize) -> Option<usize>
    requires place_in { place < size.w * size.h }
    requires direction_in { direction < 4 }
    ensures cell { result ≡ step_from size place direction }
    ensures within { IfSome result (λ cell. cell < size.w * size.h) }
{
    let w = usize::from(size.w());
    let h = usize::from(size.h());
    match direction {
        0 => {
            if place / w >= 1 {
                return Some(place - w);
            }
        }
        1 => {
            if place % w >= 1 {
                return Some(place - 1);
            }
        }
        2 => {
            if place % w + 1 < w {
                return Some(place + 1);
            }
        }
        _ => {
            if place / w + 1 < h {
                return Some(place + w);
            }
        }
    }
    None
}
