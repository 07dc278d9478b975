//! A small rule set for the tests: cells in a row, the first of them 0, and no two neighbours equal.

ghost use Rattle.std.specs.Prelude.{◌≡◌, ◌==◌, ◌<◌, ◌≤◌, ℕ, refl, true};
ghost use Rattle.std.specs.Int.{bit_at};
ghost use Rattle.grid_core.specs.Board.{cells_of, has};
ghost use Rattle.engine_core.specs.Mode.{is_queue};
ghost use Rattle.engine_core.specs.declared.mode.Mode.{Mode};
ghost use Rattle.engine_core.specs.declared.mode.Mode.TheVariants.{Queue, Sweep};
ghost use Rattle.core_tests.specs.Neighbours.{neighbours, neighbour_has_other};

use engine_core::{Mode, PlainPosition, Rules, Searchable, apply};
use grid_core::{Board, Grid};
use std::alloc::{AllocError, Global};

/// How boards of such rules are closed.
pub trait Way: Copy {
    const MODE: Mode;

    ghost MODE: { Mode };
}

#[derive(Clone, Copy)]
pub struct ByQueue;

impl Way for ByQueue {
    const MODE: Mode = Mode::Queue;

    ghost MODE = { Queue };
}

#[derive(Clone, Copy)]
pub struct BySweeps;

impl Way for BySweeps {
    const MODE: Mode = Mode::Sweep;

    ghost MODE = { Sweep };
}

/// Cells in a row.
#[derive(Drop)]
pub struct Neighbours<W> {
    pub cells: usize,
    pub values: u8,
    pub way: W,
    ghost two: { 2 ≤ cells },
    ghost few_cells: { cells ≤ 65536 },
    ghost some: { 1 ≤ values },
    ghost few_values: { values ≤ 31 },
}

/// As bits, the values that the cell beside this one may keep: those besides which this cell has another.
fn kept_beside(board: &Board, cell: usize) -> u32
    requires cell_in { cell < cells_of board.now }
    requires few { board.now.values ≤ 31 }
    ensures { (v : ℕ) → v < board.now.values
        → (bit_at result v == 1) ≡ neighbour_has_other board.now.values (has board.now cell) v }
{
    match board.count(cell) {
        0 => 0,
        1 => !board.bits(cell),
        _ => !0,
    }
}

impl<W: Way> Rules for Neighbours<W> {
    ghost use Rattle.core_tests.specs.NeighboursLaws.{neighbours-lawful};

    type Scratch = ();

    const SETTLED: bool = true;

    const MODE: Mode = W::MODE;

    ghost system = { λ r. neighbours (is_queue W.MODE) r.cells r.values };

    ghost SETTLED = { true };

    ghost MODE = { W.MODE };

    ghost mode_is = { λ _. refl };

    ghost serves = { λ _ _. Unit {0} };

    ghost lawful = { λ r. neighbours-lawful _ _ _ r.two r.few_cells r.some r.few_values };

    ghost settled_is = { λ _. refl };

    ghost serves_smaller = { λ had_by need had fits served. tt };

    fn cells(&self) -> usize {
        self.cells
    }

    fn values(&self) -> u8 {
        self.values
    }

    fn houses(&self) -> usize {
        self.cells - 1
    }

    fn bound(&self) -> usize {
        self.cells * usize::from(self.values - 1) + self.cells
    }

    fn scope_len(&self, _house: usize) -> usize {
        2
    }

    fn scope(&self, house: usize, k: usize) -> usize {
        house + k
    }

    fn house_at(&self, place: usize, from: usize) -> Option<usize> {
        let first = from.max(place.saturating_sub(1));
        if first > place || first + 1 == self.cells {
            return None;
        }
        Some(first)
    }

    fn start(&self, board: &mut Board) {
        board.fill();
        board.keep_only(0, 0);
    }

    fn scratch(&self, _alloc: Global) -> Result<(), AllocError> {
        Ok(())
    }

    fn visit(&self, house: usize, board: &mut Board, _scratch: &mut ()) -> bool {
        let kept = [kept_beside(board, house + 1), kept_beside(board, house)];
        apply(board, &[house as u32, house as u32 + 1], &kept)
    }

    fn accept(&self, _scratch: &mut (), grid: &Grid) -> bool {
        let mut holds = grid.get(0) == 0;
        for house in 0..self.cells - 1 {
            holds &= grid.get(house) != grid.get(house + 1);
        }
        holds
    }
}

impl<W: Way> Searchable for Neighbours<W> {
    type Position = PlainPosition<Neighbours<W>>;
}
