//! What planes of Light Up keep of a puzzle.

ghost use Rattle.std.specs.Prelude.{◌≡◌, ◌+◌, ◌*◌, ◌<◌, ◌≤◌, IfOk, length};
ghost use Rattle.fields_core.specs.Common.{AreRunsWritten, HasTables, IsFilledIn, IsRowOf, ReachesAlong, is_numbered, white};

use crate::light_up::cells::columns;
use gameid_core::{LightCell, LightPuzzle};
use grid_core::{Fixed, Word};
use std::alloc::{AllocError, Global};

/// The white cells of each row and of each column, and the numbered cells of each row. By place the run of white cells that
/// the cell is in, along its row and along its column: the places of its cells along that line. A black cell is in none.
#[derive(Drop)]
pub struct LightTables<W: Word> {
    pub(crate) rows: Fixed<W>,
    pub(crate) columns: Fixed<W>,
    pub(crate) numbers: Fixed<W>,
    pub(crate) row_runs: Fixed<W>,
    pub(crate) column_runs: Fixed<W>,
}

impl<W: Word> LightTables<W> {
    /// Words for so many cells, and for as many lines as words have places.
    pub(crate) fn new(alloc: Global, cells: usize) -> Result<LightTables<W>, AllocError>
        ensures { IfOk result (λ tables. HasTables cells W.room tables) }
    {
        Ok(LightTables {
            rows: Fixed::copies(alloc, W::none(), W::places())?,
            columns: Fixed::copies(alloc, W::none(), W::places())?,
            numbers: Fixed::copies(alloc, W::none(), W::places())?,
            row_runs: Fixed::copies(alloc, W::none(), cells)?,
            column_runs: Fixed::copies(alloc, W::none(), cells)?,
        })
    }
}

/// The white cells of a row, and the numbered ones.
pub(crate) fn cells_of_row<W: Word>(puzzle: &LightPuzzle, y: usize) -> (W, W)
    requires y_in { y < puzzle.now.size.h }
    requires narrow { puzzle.now.size.w ≤ W.room }
    ensures whites { IsRowOf puzzle.now.size.w (white puzzle.now) y (W.bits result.0) }
    ensures numbers { IsRowOf puzzle.now.size.w (is_numbered puzzle.now) y (W.bits result.1) }
{
    let w = columns(puzzle);
    let mut whites = W::none();
    let mut numbers = W::none();
    for x in 0..w {
        match puzzle.cell(y * w + x) {
            LightCell::White => whites = whites.either(W::one(x)),
            LightCell::Black => {}
            LightCell::Numbered(_) => numbers = numbers.either(W::one(x)),
        }
    }
    (whites, numbers)
}

/// Writes the word at the places of the numbers of a line from `start` on and before `end`.
fn fill<W: Word>(
    runs: &mut Fixed<W>,
    word: W,
    first: usize,
    stride: usize,
    start: usize,
    end: usize,
)
    requires within { ReachesAlong (length runs.old.items) first stride end }
    requires low { start ≤ end }
    ensures filled { IsFilledIn W.bits word first stride start end runs.old.items runs.new.items }
    ensures long { length runs.new.items ≡ length runs.old.items }
{
    for at in start..end {
        runs[first + at * stride] = word;
    }
}

/// Writes the runs of the cells of a line with these white ones at their places.
pub(crate) fn write_runs<W: Word>(
    runs: &mut Fixed<W>,
    white: W,
    first: usize,
    stride: usize,
    len: usize,
)
    requires within { ReachesAlong (length runs.old.items) first stride len }
    requires onward { 0 < stride }
    requires fits { len ≤ W.room }
    ensures written { AreRunsWritten W.bits white first stride len runs.old.items runs.new.items }
    ensures long { length runs.new.items ≡ length runs.old.items }
{
    let mut blacks = W::all(len).but(white);
    let mut start = 0;
    while blacks.is_some() {
        let black = blacks.lowest();
        let run = W::all(black).but(W::all(start));
        fill(runs, run, first, stride, start, black);
        runs[first + black * stride] = W::none();
        blacks = blacks.without_lowest();
        start = black + 1;
    }
    let last = W::all(len).but(W::all(start));
    fill(runs, last, first, stride, start, len);
}
