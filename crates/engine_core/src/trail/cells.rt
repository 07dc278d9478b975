//! What is read off the cells of a board: the one to branch on, its values, and the grid of a full one.
#![tactic(auto, using(crate::proofs::LawSets::cell_laws))]

ghost use Rattle.std.specs.Prelude.{◌<◌, ◌≡◌, ◌≤◌, IfSome, None, false, length, true};
ghost use Rattle.engine_core.specs.Common.{has, cells_of, count_below, is_full, grid_of, pick, better, IsNext};

use grid_core::{Board, Grid};

/// Writes each cell's only value.
pub(crate) fn write_grid(board: &Board, cells: usize, grid: &mut Grid)
    requires cells_of { cells ≡ cells_of board.now }
    requires full { is_full cells board.now.values (has board.now) ≡ true }
    requires long { length grid.old ≡ cells }
    ensures { grid.new ≡ grid_of cells board.now.values (has board.now) }
{
    for cell in 0..cells {
        grid.set(cell, board.bits(cell).trailing_zeros() as u8);
    }
}

/// The better of two choices of a cell.
#[tactic(auto, unfolding(grid_core::specs::Candidates::better))]
pub(crate) fn better_cell(board: &Board, best: Option<usize>, cell: usize) -> Option<usize>
    requires cell_in { cell < cells_of board.now }
    requires best_in { IfSome best (λ b. b < cells_of board.now) }
    ensures { result ≡ better board.now.values (has board.now) best cell }
{
    let count = board.count(cell);
    match best {
        Some(old) if count < 2 || count >= board.count(old) => Some(old),
        None if count < 2 => None,
        _ => Some(cell),
    }
}

/// The cell to branch on, where none before `from` is one.
pub(crate) fn best_cell(board: &Board, from: usize, cells: usize) -> Option<usize>
    requires cells_in { cells ≤ cells_of board.now }
    requires from_in { from ≤ cells }
    requires none { pick from board.now.values (has board.now) ≡ None }
    ensures { result ≡ pick cells board.now.values (has board.now) }
{
    let mut best = None;
    for cell in from..cells {
        let count = board.count(cell);
        if count >= 2 {
            best = better_cell(board, best, cell);
            if count == 2 {
                return best; // no later cell is better
            }
        }
    }
    best
}

/// The least value at or after `from` that the cell has, of so many values.
pub(crate) fn least_value(board: &Board, cell: usize, from: u8, values: u8) -> Option<u8>
    requires cell_in { cell < cells_of board.now }
    requires values_in { values ≤ board.now.values }
    ensures { IsNext (has board.now cell) values from result }
{
    for value in from..values {
        if board.has(cell, value) {
            return Some(value);
        }
    }
    None
}
