//! The check of a grid of Light Up.
#![tactic(auto, using(crate::proofs::LawSets::light_check_laws))]

ghost use Rattle.std.specs.Prelude.{◌<◌, ◌↔◌, ◌≡◌, None};
ghost use Rattle.fields_core.specs.Common.{IsGrid, IsLight, IsLightFault, IsLightSolution, light_cells, number_right};

use crate::count::house::next_passing;
use crate::light_up::cells::is_white;
use crate::light_up::fault::LightFault;
use crate::light_up::sight::{count_beside, sees_a_bulb};
use gameid_core::{LightCell, LightPuzzle};
use grid_core::Grid;

/// Whether the cell's number, if it has one, is that of the bulbs beside it.
#[tactic(auto, using(crate::proofs::LawSets::light_check_laws), unfolding(crate::specs::Light::number_right))]
fn is_number_right(puzzle: &LightPuzzle, grid: &Grid, place: usize) -> bool
    requires lawful { IsLight puzzle.now }
    requires fits { IsGrid (light_cells puzzle.now) 2 grid.now }
    requires place_in { place < light_cells puzzle.now }
    ensures { result ≡ number_right puzzle.now grid.now place }
{
    match puzzle.cell(place) {
        LightCell::Numbered(n) => count_beside(puzzle, grid, place) == usize::from(n),
        _ => true,
    }
}

/// What is wrong with a grid of Light Up, 1 at a bulb and 0 elsewhere: the first broken rule, in the order of
/// `LightFault`, at the lowest place. `None` means that the grid is a solution: each white cell holds a bulb or sees
/// one along its row or column with only white cells between, no bulb sees a bulb, no bulb stands on a black cell,
/// and each number is that of the bulbs beside its cell (the rules of Light Up in the manual of Simon Tatham's
/// Portable Puzzle Collection).
pub fn check_lights(puzzle: &LightPuzzle, grid: &Grid) -> Option<LightFault>
    requires fits { IsGrid (light_cells puzzle.now) 2 grid.now }
    ensures fault { IsLightFault puzzle.now grid.now result }
    ensures solution { (result ≡ None) ↔ IsLightSolution puzzle.now grid.now }
{
    let end = puzzle.size().cells();
    if let Some(place) = next_passing(0, end, |c| grid.get(c) != 0 && !is_white(puzzle, c)) {
        return Some(LightFault::Black(place));
    }
    if let Some(place) = next_passing(0, end, |c| !is_number_right(puzzle, grid, c)) {
        return Some(LightFault::Number(place));
    }
    let is_seen = |c| grid.get(c) == 1 && sees_a_bulb(puzzle, grid, c);
    if let Some(place) = next_passing(0, end, is_seen) {
        return Some(LightFault::Seen(place));
    }
    let is_dark = |c| is_white(puzzle, c) && grid.get(c) != 1 && !sees_a_bulb(puzzle, grid, c);
    if let Some(place) = next_passing(0, end, is_dark) {
        return Some(LightFault::Dark(place));
    }
    None
}
