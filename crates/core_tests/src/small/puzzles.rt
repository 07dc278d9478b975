//! Small puzzles of each game as plain programs have them.

use super::houses::{Condition, Houses};
use super::{CELLS, Cells, Numbers, Sets, VALUES};
use gameid_core::{LightCell, LightPuzzle, PatternPuzzle, SoloPuzzle, TentsPuzzle};
use grid_core::Size;
use std::array::from_fn;

/// A puzzle: what each cell can be at first, the houses, and the trees that want a tent each.
#[derive(Drop)]
pub(crate) struct Small {
    width: usize,
    pub(crate) cells: usize,
    pub(crate) start: Sets,
    houses: Houses,
    trees: Option<Cells>,
}

/// The least and the most ones of a house.
fn ones(least: usize, most: usize) -> Condition {
    Condition::Ones { least, most }
}

impl Small {
    /// A grid of so many cells in rows of that width, which can have each of the first values. It has no house.
    fn new(width: usize, cells: usize, values: usize) -> Small {
        Small {
            width: width.max(1),
            cells,
            start: from_fn(|cell| from_fn(|value| cell < cells && value < values)),
            houses: Houses::new(),
            trees: None,
        }
    }

    /// A row whose first cell is 0, and in which no neighbours have one value.
    pub(crate) fn row(cells: usize, values: usize) -> Small {
        let mut row = Small::new(cells, cells, values);
        row.start[0] = from_fn(|value| value == 0);
        for cell in 1..cells.min(CELLS) {
            let both = from_fn(|other| other == cell || other + 1 == cell);
            row.houses.push(both, Condition::Different);
        }
        row
    }

    /// A grid of two values.
    fn of_size(size: Size) -> Small {
        Small::new(usize::from(size.w()), size.cells(), 2)
    }

    /// The column and the row of a cell.
    fn at(&self, cell: usize) -> (usize, usize) {
        (cell % self.width.max(1), cell / self.width.max(1))
    }

    /// Whether a cell can be 1.
    fn is_open(&self, cell: usize) -> bool {
        cell < CELLS && self.start[cell][1]
    }

    /// Whether the cells share a side.
    fn are_beside(&self, one: usize, other: usize) -> bool {
        let ((x, y), (u, v)) = (self.at(one), self.at(other));
        x.abs_diff(u).saturating_add(y.abs_diff(v)) == 1
    }

    /// The open cells beside a cell.
    fn beside(&self, one: usize) -> Cells {
        from_fn(|cell| self.is_open(cell) && self.are_beside(one, cell))
    }

    /// The cells of a column or of a row.
    fn line(&self, number: usize, is_row: bool) -> Cells {
        from_fn(|cell| {
            let (x, y) = self.at(cell);
            cell < self.cells && number == if is_row { y } else { x }
        })
    }

    /// Whether these cells, from one to another by that step, all are open.
    fn are_joined(&self, from: usize, to: usize, step: usize) -> bool {
        (from..=to)
            .step_by(step.max(1))
            .all(|cell| self.is_open(cell))
    }

    /// The open cells of a run of a column or of a row.
    fn run(&self, one: usize, in_row: bool) -> Cells {
        from_fn(|cell| {
            let ((x, y), (u, v)) = (self.at(one), self.at(cell));
            let (same, step) = if in_row {
                (y == v, 1)
            } else {
                (x == u, self.width)
            };
            same && self.are_joined(one.min(cell), one.max(cell), step)
        })
    }

    /// The square of 2 by 2 cells with this one at its top left, or what of it is in the grid.
    fn square(&self, one: usize) -> Cells {
        from_fn(|cell| {
            let ((x, y), (u, v)) = (self.at(one), self.at(cell));
            cell < self.cells && u >= x && u - x < 2 && v >= y && v - y < 2
        })
    }

    /// Whether each tent from this cell on has a tree of its own that is not used yet, and all trees are used then.
    fn are_paired(&self, grid: &Numbers, cell: usize, left: Cells) -> bool {
        if cell >= CELLS {
            return left.iter().all(|tree| !*tree);
        }
        if grid[cell] != 1 {
            return self.are_paired(grid, cell + 1, left);
        }
        for tree in 0..CELLS {
            if left[tree] && self.are_beside(cell, tree) {
                let mut rest = left;
                rest[tree] = false;
                if self.are_paired(grid, cell + 1, rest) {
                    return true;
                }
            }
        }
        false
    }

    /// The closure of the board.
    pub(crate) fn closure(&self, sets: &Sets) -> Sets {
        self.houses.closure(sets)
    }

    /// Whether the grid of a closed board is a solution.
    pub(crate) fn accepts(&self, grid: &Numbers) -> bool {
        let paired = match self.trees {
            Some(trees) => self.are_paired(grid, 0, trees),
            None => true,
        };
        paired && self.houses.are_met(grid)
    }

    /// How many values a cell can have at first.
    fn choices(&self, cell: usize) -> usize {
        self.start[cell.min(CELLS - 1)]
            .iter()
            .filter(|there| **there)
            .count()
    }

    /// How many grids the start allows.
    pub(crate) fn grids(&self) -> usize {
        let mut grids = 1usize;
        for cell in 0..self.cells.min(CELLS) {
            grids = grids.saturating_mul(self.choices(cell));
        }
        grids
    }

    /// The grid with this number among those that the start allows.
    pub(crate) fn grid_at(&self, number: usize) -> Numbers {
        let (mut grid, mut rest) = ([0; CELLS], number);
        for cell in 0..self.cells.min(CELLS) {
            let choices = self.choices(cell).max(1);
            let mut before = rest % choices;
            for value in 0..VALUES {
                if self.start[cell][value] && before == 0 {
                    grid[cell] = value;
                }
                before = before.wrapping_sub(usize::from(self.start[cell][value]));
            }
            rest /= choices;
        }
        grid
    }

    /// The cells of a block of `r` columns and `c` rows, so many of them beside each other.
    fn block(&self, c: usize, r: usize, number: usize) -> Cells {
        let (c, r) = (c.max(1), r.max(1));
        from_fn(|cell| {
            let (x, y) = self.at(cell);
            cell < self.cells && (y / c).saturating_mul(c).saturating_add(x / r) == number
        })
    }

    /// The diagonal from the top left, or that from the top right.
    fn diagonal(&self, falling: bool) -> Cells {
        from_fn(|cell| {
            let (x, y) = self.at(cell);
            let on = x == y && falling
                || x.saturating_add(y).saturating_add(1) == self.width && !falling;
            cell < self.cells && on
        })
    }

    /// Adds the crossing of a block and a line, if they meet.
    fn push_crossing(&mut self, block: Cells, line: Cells) {
        if (0..CELLS).any(|cell| block[cell] && line[cell]) {
            let members = from_fn(|cell| block[cell] != line[cell]);
            self.houses.push(members, Condition::Crossing(block));
        }
    }

    /// Solo: rows, columns and blocks, both diagonals in Solo X, and crossings where they are asked for.
    pub(crate) fn solo(puzzle: &SoloPuzzle, condition: Condition, crossed: bool) -> Small {
        let n = usize::from(puzzle.n());
        let (c, r) = (usize::from(puzzle.c()), usize::from(puzzle.r()));
        let mut small = Small::new(n, n * n, n);
        for cell in 0..CELLS.min(n * n) {
            let given = usize::from(puzzle.given(cell));
            for value in 0..VALUES {
                small.start[cell][value] &= given == 0 || value + 1 == given;
            }
        }
        for number in 0..n {
            let (row, column) = (small.line(number, true), small.line(number, false));
            for members in [row, column, small.block(c, r, number)] {
                small.houses.push(members, condition);
            }
            let blocks = if crossed { n } else { 0 };
            for block in 0..blocks {
                let block = small.block(c, r, block);
                small.push_crossing(block, row);
                small.push_crossing(block, column);
            }
        }
        if puzzle.x() {
            let (falling, rising) = (small.diagonal(true), small.diagonal(false));
            small.houses.push(falling, condition);
            small.houses.push(rising, condition);
        }
        small
    }

    /// Pattern: the runs of the lines.
    pub(crate) fn pattern(puzzle: &PatternPuzzle) -> Small {
        let mut small = Small::of_size(puzzle.size());
        let (w, h) = (
            usize::from(puzzle.size().w()),
            usize::from(puzzle.size().h()),
        );
        for line in 0..w + h {
            let mut lengths = 0u32;
            for k in 0..puzzle.clue_len(line) {
                lengths = lengths
                    .saturating_mul(10)
                    .saturating_add(u32::from(puzzle.clue(line, k)));
            }
            let members = small.line(if line < w { line } else { line - w }, line >= w);
            small.houses.push(members, Condition::Runs(lengths));
        }
        small
    }

    /// Light Up: numbers, runs, and what each white cell sees.
    pub(crate) fn lights(puzzle: &LightPuzzle) -> Small {
        let mut small = Small::of_size(puzzle.size());
        for cell in 0..puzzle.size().cells().min(CELLS) {
            small.start[cell][1] = puzzle.cell(cell) == LightCell::White;
        }
        for cell in 0..puzzle.size().cells().min(CELLS) {
            if let LightCell::Numbered(number) = puzzle.cell(cell) {
                let (number, beside) = (usize::from(number), small.beside(cell));
                small.houses.push(beside, ones(number, number));
            }
            if small.start[cell][1] {
                small.push_white(cell);
            }
        }
        small
    }

    /// Adds the houses of a white cell: its runs, and the cells that it sees with itself.
    fn push_white(&mut self, cell: usize) {
        let (row, column) = (self.run(cell, true), self.run(cell, false));
        let mut seen = row;
        for other in 0..CELLS {
            seen[other] |= column[other];
        }
        self.houses.push(row, ones(0, 1));
        self.houses.push(column, ones(0, 1));
        self.houses.push(seen, ones(1, CELLS));
    }

    /// Tents: the numbers of the lines, the trees and the squares.
    pub(crate) fn tents(puzzle: &TentsPuzzle) -> Small {
        let mut small = Small::of_size(puzzle.size());
        let (w, h) = (
            usize::from(puzzle.size().w()),
            usize::from(puzzle.size().h()),
        );
        let mut trees = [false; CELLS];
        for cell in 0..puzzle.size().cells().min(CELLS) {
            trees[cell] = puzzle.tree(cell);
        }
        for cell in 0..small.cells.min(CELLS) {
            let open = (0..CELLS).any(|tree| trees[tree] && small.are_beside(cell, tree));
            small.start[cell][1] = open && !trees[cell];
        }
        for line in 0..w + h {
            let count = usize::from(puzzle.count(line));
            let members = small.line(if line < w { line } else { line - w }, line >= w);
            small.houses.push(members, ones(count, count));
        }
        for cell in 0..small.cells.min(CELLS) {
            let (beside, square) = (small.beside(cell), small.square(cell));
            if trees[cell] {
                small.houses.push(beside, ones(1, CELLS));
            }
            small.houses.push(square, ones(0, 1));
        }
        small.trees = Some(trees);
        small
    }
}
