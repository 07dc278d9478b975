//! The filling of plain Solo.

ghost use Rattle.std.specs.Prelude.{◌≡◌, ◌+◌, ◌*◌, ◌<◌, ◌≤◌, false, slice_index, IfOk, OnOk};
ghost use Rattle.maker_core.specs.Below.{IsGrid, max_numbers};
ghost use Rattle.maker_core.specs.Draws.{AreDrawnBy, IsDrawnBy, shuffled_order};
ghost use Rattle.maker_core.specs.SoloFilling.{AreOrders, IsOrder, IsLineOrder, IsFullSolution, IsGroupDrawn, all_given, in_lines, line_order as lines_of_order, plain_filling};
ghost use Rattle.maker_core.specs.SoloMaking.{IsSoloSize};

use crate::draws::order;
use gameid_core::SoloPuzzle;
use grid_core::Grid;
use rand_core::Rng;
use std::alloc::{AllocError, Global};

/// A grid of `c` columns and `r` rows of sub-blocks that has every number once in each row, column and block. Of one such
/// grid the numbers, the bands of `c` rows and the rows of each band are shuffled in turn. Then so are the stacks of `r`
/// columns and the columns of each stack. A cell holds the number v as v - 1.
///
/// # Errors
///
/// When memory was refused. The generator may have been drawn from then.
pub(crate) fn fill_plain<G: Rng>(
    alloc: Global,
    c: u8,
    r: u8,
    rng: &mut G,
) -> Result<Grid, AllocError>
    requires { IsSoloSize c r }
    ensures filling { IfOk result (IsDrawnBy (plain_filling c r) G.stream rng.old rng.new) }
    ensures solution { IfOk result (IsFullSolution c r false) }
{
    let tall = usize::from(c);
    let wide = usize::from(r);
    let numbers = order(alloc, rng, tall * wide)?;
    let rows = line_order(alloc, wide, tall, rng)?;
    let columns = line_order(alloc, tall, wide, rng)?;
    rearrange(
        alloc,
        tall,
        wide,
        &numbers,
        Lines {
            rows: &rows,
            columns: &columns,
        },
    )
}

/// The puzzle that gives all cells of the grid.
#[tactic(auto, using(crate::proofs::SoloSolution::full_laws))]
pub(crate) fn full_puzzle(
    alloc: Global,
    c: u8,
    r: u8,
    x: bool,
    grid: &Grid,
) -> Result<SoloPuzzle, AllocError>
    requires size { IsSoloSize c r }
    requires grid { IsGrid ((c * r) * (c * r)) (c * r) grid.now }
    ensures { IfOk result (λ puzzle. puzzle ≡ all_given c r x grid.now) }
{
    let mut puzzle = SoloPuzzle::blank(alloc, c, r, x)?;
    for place in 0..grid.len() {
        puzzle.set_given(place, grid.get(place) + 1);
    }
    Ok(puzzle)
}

/// So many groups of so many lines in a shuffled order: the groups first, and then the lines in each.
#[tactic(auto, using(crate::proofs::Shuffles::draw_laws))]
fn line_order<G: Rng>(
    alloc: Global,
    count: usize,
    size: usize,
    rng: &mut G,
) -> Result<Vec<usize>, AllocError>
    requires some { 0 < size }
    requires few { count * size ≤ max_numbers }
    ensures drawn { IfOk result (AreDrawnBy (lines_of_order count size) G.stream rng.old rng.new) }
    ensures grouped { IfOk result (λ v. IsLineOrder count size v.items) }
{
    let groups = order(alloc, rng, count)?;
    let mut lines = Vec::new(alloc);
    for k in 0..count {
        push_group(alloc, size, groups[k], rng, &mut lines)?;
    }
    Ok(lines)
}

/// Appends the lines of a group in a shuffled order.
#[tactic(auto, using(crate::proofs::Shuffles::draw_laws))]
fn push_group<G: Rng>(
    alloc: Global,
    size: usize,
    group: usize,
    rng: &mut G,
    lines: &mut Vec<usize>,
) -> Result<(), AllocError>
    requires few { (group + 1) * size ≤ max_numbers }
    ensures drawn { OnOk result
        (IsGroupDrawn size group lines.old lines.new G.stream rng.old rng.new) }
    ensures ordered { OnOk result (IsOrder size (shuffled_order size (G.stream rng.old)).0) }
{
    let inside = order(alloc, rng, size)?;
    for k in 0..size {
        lines.push(group * size + inside[k])?;
    }
    Ok(())
}

/// The rows and the columns of a grid in new orders.
#[derive(Clone, Copy)]
struct Lines<'a> {
    rows: &'a [usize],
    columns: &'a [usize],
}

/// The grid in which each number has become another, and rows and columns stand in new orders.
#[tactic(auto, using(crate::proofs::SoloSolution::solution_laws))]
fn rearrange(
    alloc: Global,
    c: usize,
    r: usize,
    numbers: &[usize],
    lines: Lines<'_>,
) -> Result<Grid, AllocError>
    requires { AreOrders c r numbers.now lines.rows.now lines.columns.now }
    ensures grid { IfOk result (λ grid. grid ≡ in_lines c r numbers.now lines.entry) }
    ensures solution { IfOk result (IsFullSolution c r false) }
{
    let cells = c * r * (c * r);
    let mut grid = Grid::new(alloc, cells)?;
    for place in 0..cells {
        grid.set(place, number_at(c, r, numbers, lines, place));
    }
    Ok(grid)
}

/// The number in a cell of that grid.
#[tactic(auto, using(crate::proofs::SoloSolution::solution_laws))]
fn number_at(c: usize, r: usize, numbers: &[usize], lines: Lines<'_>, place: usize) -> u8
    requires orders { AreOrders c r numbers.now lines.rows.now lines.columns.now }
    requires place { place < (c * r) * (c * r) }
    ensures { result ≡ slice_index (in_lines c r numbers.now lines.entry) place }
{
    let n = c * r;
    let x = lines.columns[place % n];
    let y = lines.rows[place / n];
    numbers[(y % c * r + y / c + x) % n] as u8
}
