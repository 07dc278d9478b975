//! What is counted of the houses of Light Up.

ghost use Rattle.std.specs.Prelude.{◌&&◌, ◌*◌, ◌+◌, ◌<◌, ◌^◌, ◌||◌, ◌≡◌, ◌≤◌, true};
ghost use Rattle.fields_core.specs.Common.{AddsHouses, IsAround, IsLatest, IsLight, IsMeasured, any_below, house_along, light_cells, light_houses, lonely, number_house, whites_of};

use crate::count::house::count_passing;
use crate::count::name::Measured;
use crate::light_up::cells::{LONGEST, columns, is_white, rows};
use crate::light_up::line::WhiteLine;
use gameid_core::{LightCell, LightPuzzle};

/// Counts the house of the number of the cell in that column and row, if it has one.
fn add_number(measured: &mut Measured, puzzle: &LightPuzzle, x: usize, y: usize)
    requires room { measured.old.houses < 2 ^ 32 }
    requires x_in { x < puzzle.now.size.w }
    requires y_in { y < puzzle.now.size.h }
    ensures added { AddsHouses (number_house puzzle.now (y * puzzle.now.size.w + x))
        measured.old measured.new }
    ensures few { measured.new.houses ≤ measured.old.houses + 1 }
    ensures unmet { measured.new.unmet
        ≡ (measured.old.unmet || lonely puzzle.now (y * puzzle.now.size.w + x)) }
{
    let place = y * columns(puzzle) + x;
    if let LightCell::Numbered(number) = puzzle.cell(place) {
        let cells = count_passing(puzzle.size(), x, y, |other| is_white(puzzle, other));
        measured.add(cells);
        measured.unmet |= (number > 0) & (cells == 0);
    }
}

/// The run of the white cell of number `at` along a line. Its house is counted, unless the latest run reaches the cell.
fn add_run(
    measured: &mut Measured,
    line: &WhiteLine<'_>,
    latest: (usize, usize),
    at: usize,
) -> (usize, usize)
    requires room { measured.old.houses < 2 ^ 32 }
    requires at_in { at < line.now.len }
    requires white { whites_of line.now at ≡ true }
    requires latest { IsLatest (whites_of line.now) line.now.len at latest }
    ensures run { IsAround (whites_of line.now) line.now.len at result.0 result.1 }
    ensures added { AddsHouses (house_along line.now at) measured.old measured.new }
    ensures few { measured.new.houses ≤ measured.old.houses + 1 }
    ensures unmet { measured.new.unmet ≡ measured.old.unmet }
{
    if at < latest.1 {
        return latest;
    }
    let end = line.run_end(at);
    measured.add(end - at);
    (at, end)
}

/// What is counted of all houses: one at a time, as the walk by place meets the place that tells it.
pub(crate) fn measure_lights(puzzle: &LightPuzzle) -> Measured
    ensures measured { IsMeasured (light_houses puzzle.now) result }
    ensures lonely { result.unmet ≡ any_below (lonely puzzle.now) (light_cells puzzle.now) }
    ensures lawful { IsLight puzzle.now }
{
    let (w, h) = (columns(puzzle), rows(puzzle));
    let mut measured = Measured::none();
    let mut columns = [(0, 0); LONGEST];
    for y in 0..h {
        let line = WhiteLine::row(puzzle, y);
        let mut row = (0, 0);
        for x in 0..w {
            if !is_white(puzzle, y * w + x) {
                add_number(&mut measured, puzzle, x, y);
                continue;
            }
            row = add_run(&mut measured, &line, row, x);
            let column = WhiteLine::column(puzzle, x);
            let (top, end) = add_run(&mut measured, &column, columns[x], y);
            columns[x] = (top, end);
            let cells = row.1 - row.0 + (end - top - 1);
            measured.add(cells);
        }
    }
    measured
}
