//! Grids read from what is printed of them.
ghost use Rattle.std.specs.Prelude.{◌≡◌, ◌*◌, ◌<◌, ◌⊎◌, ◌↔◌, IsTrue, IfOk, IfSome, length};
ghost use Rattle.gameid_core.specs.PrintedForm.{IsCandidate, IsGridRead, IsRowFit, IsRowRead, IsShownIn};

use crate::grids::readable::Readable;
use crate::grids::writer::push_grid;
use grid_core::Grid;
use std::alloc::{AllocError, Global};

/// Reads a row into the grid: what stands after its line end, or nothing where no row of the puzzle
/// stands there.
#[tactic(auto, using(crate::proofs::PrintedGrids::none_left))]
fn read_row<'a, P: Readable>(
    puzzle: &P,
    grid: &mut Grid,
    y: usize,
    text: &'a [u8],
) -> Option<&'a [u8]>
    requires cells { length grid.old ≡ (P.extent puzzle.now).w * (P.extent puzzle.now).h }
    requires row { y < (P.extent puzzle.now).h }
    ensures cells { length grid.new ≡ length grid.old }
    ensures fit { IfSome result (λ rest.
        IsRowFit P.Printed P.hides puzzle.now y grid.old grid.new) }
    ensures read { IsRowRead P.Printed P.hides puzzle.now y text.now grid.old grid.new result }
{
    let w = puzzle.columns();
    let mut rest = text;
    for x in 0..w {
        let (value, count) = puzzle.read_cell(rest, y * w + x)?;
        grid.set(y * w + x, value);
        rest = &rest[count..];
    }
    let (byte, more) = rest.split_first()?;
    if *byte == b'\n' { Some(more) } else { None }
}

/// The only grid of the puzzle whose printed form the text may begin with.
fn candidate<P: Readable>(
    alloc: Global,
    puzzle: &P,
    text: &[u8],
) -> Result<Option<Grid>, AllocError>
    ensures shown { IfOk result (λ found. IfSome found (IsShownIn P.Printed P.hides puzzle.now)) }
    ensures read { IfOk result (λ found. IsCandidate P.Printed P.hides puzzle.now text.now found) }
{
    let mut grid = Grid::new(alloc, puzzle.columns() * puzzle.rows())?;
    let mut rest = text;
    for y in 0..puzzle.rows() {
        match read_row(puzzle, &mut grid, y, rest) {
            Some(more) => rest = more,
            None => return Ok(None),
        }
    }
    Ok(Some(grid))
}

/// Whether the printed form is one of the two texts.
fn is_either(first: &[u8], second: &[u8], printed: &[u8]) -> bool
    ensures { IsTrue result ↔ ((first.now ≡ printed.now) ⊎ (second.now ≡ printed.now)) }
{
    first == printed || second == printed
}

/// The one grid of the puzzle whose printed form the text is, with or without the last line end;
/// nothing where the text is no grid's. The grid has a number for each cell, by place, and 0 where
/// nothing is shown of the number.
pub fn read_grid<P: Readable>(
    alloc: Global,
    puzzle: &P,
    mut text: Vec<u8>,
) -> Result<Option<Grid>, AllocError>
    ensures { IfOk result (λ found. IsGridRead P.Printed P.hides puzzle.now text.items found) }
{
    let length = text.len();
    text.push(b'\n')?;
    let Some(grid) = candidate(alloc, puzzle, &text)? else {
        return Ok(None);
    };
    let mut printed = String::new(alloc);
    push_grid(&mut printed, puzzle, &grid)?;
    if is_either(&text[..length], &text, printed.as_bytes()) {
        Ok(Some(grid))
    } else {
        Ok(None)
    }
}
