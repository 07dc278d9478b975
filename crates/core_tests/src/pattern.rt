//! Visits of a row beside a listing of its fillings, on every board of up to six open cells, and visits of long runs.
//!
//! A clue of 64 cells or more, each run with a white cell after it, is spelled in words of 128 bits. So each short clue
//! is tried alone, behind a run of 63 cells and before one. The cells of the long run are fixed, and so is the white
//! cell beside it. No ID has a line that is too short for its clue; among the boards of a longer one it is that whose
//! last cells are white.

ghost use Rattle.std.specs.Prelude.{◌≡◌, ◌≤◌, length};
ghost use Rattle.grid_core.specs.Board.{SameShape, cells_of};
ghost use Rattle.engine_core.specs.RuleSystem.{IsBoardOf};
ghost use Rattle.pattern_core.specs.LineRules.{line_rules};

use crate::rules::pattern;
use crate::small::{self, Condition, House};
use engine_core::Rules;
use grid_core::Board;
use pattern_core::{LineScratch, PatternLines};
use std::alloc::Global;
use std::array::from_fn;
use std::test::Fail;

/// The most open cells of a row.
const OPEN: usize = 6;

/// The cells of a long run and the white cell beside it.
const FIXED: usize = 64;

/// The most cells of a row.
const CELLS: usize = OPEN + FIXED;

/// All clues that six cells have room for. The first has no run.
const CLUES: &str = " 1 2 3 4 5 6 1.1 1.2 2.1 1.3 2.2 3.1 1.4 2.3 3.2 4.1 1.1.1 1.1.2 1.2.1 2.1.1";

/// Where the long run of a row stands, if it has one.
#[derive(Clone, Copy)]
enum Long {
    None,
    Before,
    Behind,
}

/// A row of open cells, and maybe of fixed ones.
#[derive(Clone, Copy)]
struct Row<'a> {
    clue: &'a str,
    open: usize,
    long: Long,
}

impl Row<'_> {
    /// How many open cells it has.
    fn open(self) -> usize
        ensures { result ≤ 6 }
    {
        self.open.min(OPEN)
    }

    /// The first open cell.
    fn from(self) -> usize
        ensures { result ≤ 64 }
    {
        match self.long {
            Long::Before => FIXED,
            _ => 0,
        }
    }

    /// How many cells it has.
    fn cells(self) -> usize
        ensures { result ≤ 70 }
    {
        match self.long {
            Long::None => self.open(),
            _ => self.open() + FIXED,
        }
    }

    /// The sets of its cells on the board with this number. White is 1, and black 2; a row of fewer cells has no others.
    fn sets(self, number: usize) -> [u32; CELLS] {
        let mut sets = [2; CELLS];
        match self.long {
            Long::Before => sets[FIXED - 1] = 1,
            _ => sets[self.open()] = 1,
        }
        let mut rest = number;
        for k in 0..self.open() {
            sets[self.from() + k] = (rest % 4) as u32;
            rest /= 4;
        }
        sets
    }

    /// What a listing of all fillings keeps of the sets: nothing of any cell, if the open ones have none.
    fn listed(self, sets: &[u32; CELLS]) -> [u32; CELLS] {
        let (from, open) = (self.from(), self.open());
        let mut row = [[false; small::VALUES]; small::CELLS];
        for k in 0..open {
            row[k][0] = sets[from + k] % 2 == 1;
            row[k][1] = sets[from + k] >= 2;
        }
        let clue = Condition::Runs(lengths(self.clue));
        let house = House::new(from_fn(|cell| cell < open), clue);
        house.strike(&mut row);
        if row[0] == [false; small::VALUES] {
            return [0; CELLS];
        }
        let mut left = *sets;
        for k in 0..open {
            left[from + k] = u32::from(row[k][0]) + 2 * u32::from(row[k][1]);
        }
        left
    }
}

/// The lengths of a clue, as digits.
fn lengths(clue: &str) -> u32 {
    let mut lengths = 0u32;
    for byte in clue.bytes() {
        if byte != b'.' {
            let length = u32::from(byte.saturating_sub(b'0'));
            lengths = lengths.saturating_mul(10).saturating_add(length);
        }
    }
    lengths
}

/// How many cells a clue needs: each second byte is a point, and stands for the white cell between two runs.
fn least(clue: &str) -> usize {
    let mut cells = clue.len() / 2;
    for byte in clue.bytes() {
        cells = cells.saturating_add(usize::from(byte.saturating_sub(b'0')));
    }
    cells
}

/// The rules of one row of so many cells with the clue of these pieces, whose columns have none.
fn rules_of(alloc: Global, cells: usize, pieces: [&str; 3]) -> Result<PatternLines, Fail> {
    let mut id = format!(in alloc; "{cells}x1:")?;
    for _column in 0..cells {
        id.push('/')?;
    }
    for piece in pieces {
        id.push_str(piece)?;
    }
    pattern(alloc, &id)
}

/// Gives the first cells these sets.
fn put(board: &mut Board, sets: &[u32])
    requires few { length sets.now ≤ 65536 }
    requires cells { length sets.now ≤ cells_of board.old }
    requires values { board.old.values ≡ 2 }
    ensures { SameShape board.old board.new }
{
    for k in 0..sets.len() {
        board.restore_set(k, 3);
        board.retain(k, sets[k]);
    }
}

/// Whether the first cells have these sets.
fn holds(board: &Board, sets: &[u32]) -> bool
    requires { length sets.now ≤ cells_of board.now }
{
    for k in 0..sets.len() {
        if board.bits(k) != sets[k] {
            return false;
        }
    }
    true
}

/// Whether a visit of the row keeps of the board with this number what the listing keeps.
fn visits_as_listed(
    rules: &PatternLines,
    board: &mut Board,
    scratch: &mut LineScratch,
    row: Row<'_>,
    number: usize,
) -> bool
    requires { IsBoardOf (line_rules rules.now.pattern) board.old }
    ensures { SameShape board.old board.new }
{
    let cells = row.cells();
    if cells != rules.cells() || cells >= rules.houses() {
        return false;
    }
    let sets = row.sets(number);
    put(board, &sets[..cells]);
    rules.visit(cells, board, scratch);
    holds(board, &row.listed(&sets)[..cells])
}

/// The same of each board of the row.
fn row_agrees(
    rules: &PatternLines,
    board: &mut Board,
    scratch: &mut LineScratch,
    row: Row<'_>,
) -> bool
    requires { IsBoardOf (line_rules rules.now.pattern) board.old }
{
    for number in 0..1usize << (2 * row.open()) {
        if !visits_as_listed(rules, board, scratch, row, number) {
            return false;
        }
    }
    true
}

/// The same of a row that is made.
fn agrees(alloc: Global, row: Row<'_>) -> Result<bool, Fail> {
    let point = if row.clue.is_empty() { "" } else { "." };
    let pieces = match row.long {
        Long::None => [row.clue, "", ""],
        Long::Before => ["63", point, row.clue],
        Long::Behind => [row.clue, point, "63"],
    };
    let rules = rules_of(alloc, row.cells(), pieces)?;
    let mut scratch = rules.scratch(alloc)?;
    let mut board = Board::new(alloc, rules.cells(), 2)?;
    Ok(row_agrees(&rules, &mut board, &mut scratch, row))
}

/// The same of all rows of up to six open cells.
fn agree(alloc: Global, long: Long) -> Result<bool, Fail> {
    for open in 1..=OPEN {
        for clue in CLUES.split(' ') {
            if least(clue) <= open && !agrees(alloc, Row { clue, open, long })? {
                return Ok(false);
            }
        }
    }
    Ok(true)
}

#[test]
fn the_table_and_the_listing_agree(rt: HostRuntime) -> Result<(), Fail> {
    assert!(rt; agree(rt.alloc(), Long::None)?);
    Ok(())
}

#[test]
fn they_agree_behind_a_long_run(rt: HostRuntime) -> Result<(), Fail> {
    assert!(rt; agree(rt.alloc(), Long::Before)?);
    Ok(())
}

#[test]
fn they_agree_before_a_long_run(rt: HostRuntime) -> Result<(), Fail> {
    assert!(rt; agree(rt.alloc(), Long::Behind)?);
    Ok(())
}

/// Whether a visit of a row of so many cells strikes white of these and nothing else, and a second visit nothing.
fn overlaps(alloc: Global, cells: usize, clue: &str, from: usize, to: usize) -> Result<bool, Fail> {
    let rules = rules_of(alloc, cells, [clue, "", ""])?;
    let mut scratch = rules.scratch(alloc)?;
    let mut board = Board::new(alloc, rules.cells(), 2)?;
    rules.start(&mut board);
    if cells > 120 || cells != rules.cells() || cells >= rules.houses() {
        return Ok(false);
    }
    let sets: [u32; 120] = from_fn(|k| if from <= k && k < to { 2 } else { 3 });
    let struck = rules.visit(cells, &mut board, &mut scratch);
    let same = struck == (from < to) && holds(&board, &sets[..cells]);
    Ok(same && !rules.visit(cells, &mut board, &mut scratch))
}

/// The cells of a row, its clue, and where white is struck.
static RUNS: [(usize, &str, usize, usize); 7] = [
    (64, "40", 24, 40),
    (64, "62", 2, 62),
    (64, "63", 1, 63),
    (64, "64", 0, 64),
    (120, "100", 20, 100),
    (120, "120", 0, 120),
    (64, "1.1.1.1.1.1.1.1.1.1.1.1.1.1.1.1", 0, 0),
];

#[test]
fn long_runs_overlap_themselves(rt: HostRuntime) -> Result<(), Fail> {
    for &(cells, clue, from, to) in RUNS.iter() {
        assert!(rt;
            overlaps(rt.alloc(), cells, clue, from, to)?,
            "{cells} {clue}"
        );
    }
    Ok(())
}
