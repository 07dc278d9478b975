//! Fillings of Light Up: black cells, bulbs, and the numbers that they give.

ghost use Rattle.std.specs.Prelude.{◌≡◌, ◌≤◌, ◌<◌, ◌*◌, true, All, IfOk, length, replicate};
ghost use Rattle.maker_core.specs.Below.{IsGrid, IsWide, light_cells, solves_lights};
ghost use Rattle.maker_core.specs.Draws.{AreAll, IsDrawnBy};
ghost use Rattle.maker_core.specs.LightMaking.{IsLit, bulbs_after, light_filling, light_puzzle_of, lights_of, lit_up, white_places, with_numbers};

use crate::black::draw_black;
use crate::draws::shuffle;
use fields_core::{count_beside, is_white, sees_a_bulb};
use gameid_core::{LightCell, LightPuzzle};
use grid_core::{Grid, Size};
use rand_core::Rng;
use std::alloc::{AllocError, Global};

/// Black cells and bulbs by place, 1 in each grid and 0 elsewhere.
#[derive(Drop)]
pub(crate) struct LightFilling {
    pub black: Grid,
    pub bulbs: Grid,
}

/// The puzzle without numbers that has these black cells, 1 for black.
#[tactic(auto, using(crate::proofs::LightMakings::blackened))]
fn with_black_cells(alloc: Global, size: Size, black: &Grid) -> Result<LightPuzzle, AllocError>
    requires w_two { 2 ≤ size.w }
    requires h_two { 2 ≤ size.h }
    requires grid { IsGrid (size.w * size.h) 2 black.now }
    ensures { IfOk result (λ p. p ≡ lights_of size black.now) }
{
    let mut puzzle = LightPuzzle::blank(alloc, size)?;
    for place in 0..size.cells() {
        if black.get(place) != 1 {
            continue;
        }
        puzzle.set_cell(place, LightCell::Black);
    }
    Ok(puzzle)
}

/// The white cells, by place.
#[tactic(auto, using(crate::proofs::LightMakings::white_laws))]
fn white_cells(alloc: Global, puzzle: &LightPuzzle) -> Result<Vec<usize>, AllocError>
    ensures { IfOk result (λ places. places.items ≡ white_places puzzle.now) }
{
    let mut places = Vec::new(alloc);
    for place in 0..puzzle.size().cells() {
        if !is_white(puzzle, place) {
            continue;
        }
        places.push(place)?;
    }
    Ok(places)
}

/// Takes the cells of the list in turn, and puts a bulb into each that neither holds nor sees one.
#[tactic(auto, using(crate::proofs::LightMakings::bulb_laws))]
fn place_bulbs(puzzle: &LightPuzzle, order: &[usize], grid: &mut Grid)
    requires within { All (λ c. c < light_cells puzzle.now) order.now }
    requires none { grid.old ≡ replicate (light_cells puzzle.now) 0 }
    ensures { grid.new ≡ bulbs_after puzzle.now order.now (length order.now) }
{
    for k in 0..order.len() {
        let place = order[k];
        if grid.get(place) == 1 {
            continue;
        }
        if sees_a_bulb(puzzle, grid, place) {
            continue;
        }
        grid.set(place, 1);
    }
}

/// Writes a number on every black cell: how many bulbs stand beside it.
#[tactic(auto, unfolding(fields_core::specs::Light::white))]
fn number_cells(puzzle: &mut LightPuzzle, grid: &Grid)
    requires { IsGrid (light_cells puzzle.old) 2 grid.now }
    ensures { puzzle.new ≡ with_numbers puzzle.old grid.now }
{
    for place in 0..puzzle.size().cells() {
        if is_white(puzzle, place) {
            continue;
        }
        let bulbs = count_beside(puzzle, grid, place) as u8;
        puzzle.set_cell(place, LightCell::Numbered(bulbs));
    }
}

/// Takes the white cells of a puzzle without numbers, listed by place and shuffled, in turn. Each that neither holds nor
/// sees a bulb gets one. The grid solves the puzzle with the numbers that it gives.
#[tactic(auto, unfolding(crate::specs::LightMaking::lit_up))]
fn light_up<G: Rng>(alloc: Global, rng: &mut G, puzzle: &LightPuzzle) -> Result<Grid, AllocError>
    ensures drawn { IfOk result (IsDrawnBy (lit_up puzzle.now) G.stream rng.old rng.new) }
    ensures grid { IfOk result (λ grid. IsGrid (light_cells puzzle.now) 2 grid) }
    ensures solved { IfOk result
        (λ grid. solves_lights (with_numbers puzzle.now grid) grid ≡ true) }
{
    let mut order = white_cells(alloc, puzzle)?;
    shuffle(rng, &mut order);
    let mut grid = Grid::new(alloc, puzzle.size().cells())?;
    place_bulbs(puzzle, &order, &mut grid);
    Ok(grid)
}

/// A filling of Light Up. Black cells are drawn one by one; then the white cells, listed by place and shuffled, are taken
/// in turn. Each that neither holds nor sees a bulb gets one.
pub(crate) fn fill_lights<G: Rng>(
    alloc: Global,
    rng: &mut G,
    size: Size,
    black: u8,
) -> Result<LightFilling, AllocError>
    requires { IsWide size }
    ensures drawn { IfOk result
        (IsDrawnBy (light_filling size black) G.stream rng.old rng.new) }
    ensures lit { IfOk result (IsLit size) }
    ensures full { black ≡ 100 → IfOk result (λ filling. AreAll 1 filling.black) }
{
    let black = draw_black(alloc, rng, size.cells(), black)?;
    let puzzle = with_black_cells(alloc, size, &black)?;
    let bulbs = light_up(alloc, rng, &puzzle)?;
    Ok(LightFilling { black, bulbs })
}

/// The puzzle of a filling, with a number on every black cell.
#[tactic(auto, unfolding(crate::specs::LightMaking::light_puzzle_of, crate::specs::LightMaking::lights_of))]
pub(crate) fn puzzle_of(
    alloc: Global,
    size: Size,
    filling: &LightFilling,
) -> Result<LightPuzzle, AllocError>
    requires wide { IsWide size }
    requires lit { IsLit size filling.now }
    ensures { IfOk result (λ p. p ≡ light_puzzle_of size filling.now) }
{
    let mut puzzle = with_black_cells(alloc, size, &filling.black)?;
    number_cells(&mut puzzle, &filling.bulbs);
    Ok(puzzle)
}
