//! Which cells and values are open, in all houses of a puzzle.
#![tactic(auto)]

ghost use Rattle.std.specs.Prelude.{◌<◌, ◌≡◌, ◌≤◌, ℕ, length};
ghost use Rattle.grid_core.specs.Board.{cells_of, has};
ghost use Rattle.grid_core.specs.Candidates.{Candidates, count_below};
ghost use Rattle.engine_core.specs.Notes.{SameBut};
ghost use Rattle.solo_core.specs.Common.{IsSolo, houses_of, solo_cells, solo_n};
ghost use Rattle.solo_core.specs.OpenBoards.{AreNotesOf, IsSizeOf};

use crate::houses::places::cells;
use crate::visits::bits::all_below;
use crate::visits::leaving::{close_cell, reopen_cell};
use crate::visits::open::OpenHouse;
use crate::visits::spots::SpotTable;
use gameid_core::SoloPuzzle;
use grid_core::Board;

/// Opens all cells and values of each house, but for the cells that have one value.
pub(crate) fn note_board(
    houses: &mut [OpenHouse],
    spots: &SpotTable,
    puzzle: &SoloPuzzle,
    board: &Board,
)
    requires size { IsSizeOf puzzle.now spots.now }
    requires enough { length (houses_of puzzle.now) ≤ length houses.old }
    requires cells { cells_of board.now ≡ solo_cells puzzle.now }
    requires values { board.now.values ≡ solo_n puzzle.now }
    ensures as_many { length houses.new ≡ length houses.old }
    ensures notes { AreNotesOf puzzle.now (has board.now) houses.new spots.now }
{
    let all = all_below(puzzle.n());
    houses.fill(OpenHouse {
        cells: all,
        values: all,
    });
    for place in 0..cells(puzzle) {
        if board.count(place) == 1 {
            close_at(houses, spots, puzzle, place, board);
        }
    }
}

/// Closes the cell of the place, which has one value.
pub(crate) fn close_at(
    houses: &mut [OpenHouse],
    spots: &SpotTable,
    puzzle: &SoloPuzzle,
    place: usize,
    board: &Board,
)
    requires solo { IsSolo puzzle.now }
    requires notes { AreNotesOf puzzle.now (has board.now) houses.old spots.now }
    requires place_in { place < solo_cells puzzle.now }
    requires cells { cells_of board.now ≡ solo_cells puzzle.now }
    requires values { board.now.values ≡ solo_n puzzle.now }
    requires one { count_below (has board.now place) board.now.values ≡ 1 }
    ensures as_many { length houses.new ≡ length houses.old }
    ensures notes { AreNotesOf puzzle.now (has board.now) houses.new spots.now }
{
    close_cell(houses, spots.at(place), board.bits(place));
}

/// Opens the cell of the place, which may then get values back.
pub(crate) fn open_at(
    houses: &mut [OpenHouse],
    spots: &SpotTable,
    puzzle: &SoloPuzzle,
    place: usize,
    board: &Board,
)
    requires solo { IsSolo puzzle.now }
    requires notes { AreNotesOf puzzle.now (has board.now) houses.old spots.now }
    requires place_in { place < solo_cells puzzle.now }
    requires cells { cells_of board.now ≡ solo_cells puzzle.now }
    requires values { board.now.values ≡ solo_n puzzle.now }
    ensures as_many { length houses.new ≡ length houses.old }
    ensures notes { (L : Candidates) → SameBut place (has board.now) L
        → AreNotesOf puzzle.now L houses.new spots.now }
{
    if board.count(place) == 1 {
        reopen_cell(houses, spots.at(place), board.bits(place));
    }
}
