//! A plain check of the grids that runs print, by the rules alone. It reads a grid from its text.
use gameid_core::{
    LightCell, LightPuzzle, PatternPuzzle, SoloPuzzle, TentsPuzzle, read_lights, read_pattern,
    read_solo, read_tents,
};
use grid_core::Size;
use std::alloc::{AllocError, Global};
use std::test::Fail;

/// A printed grid whose cells are one byte each.
#[derive(Drop)]
struct Printed<'a> {
    text: &'a [u8],
    w: usize,
    h: usize,
}

impl<'a> Printed<'a> {
    fn new(text: &'a str, size: Size) -> Printed<'a> {
        Printed {
            text: text.as_bytes(),
            w: usize::from(size.w()),
            h: usize::from(size.h()),
        }
    }

    /// What is printed in a column and a row, and a space outside the grid.
    fn at(&self, x: usize, y: usize) -> u8 {
        if x >= self.w || y >= self.h {
            return b' ';
        }
        let row = y.saturating_mul(self.w.saturating_add(1));
        match self.text.get(row.saturating_add(x)) {
            Some(byte) => *byte,
            None => b' ',
        }
    }

    /// The same of the place with this number.
    fn get(&self, place: usize) -> u8 {
        let w = self.w.max(1);
        self.at(place % w, place / w)
    }

    /// The same of a cell of a line, the columns first.
    fn in_line(&self, line: usize, k: usize) -> u8 {
        if line < self.w {
            self.at(line, k)
        } else {
            self.at(k, line - self.w)
        }
    }

    /// The cell so many steps from one, in one of four directions. Outside the grid there is a space.
    fn step(&self, place: usize, direction: usize, steps: usize) -> u8 {
        let w = self.w.max(1);
        let (x, y) = (place % w, place / w);
        match direction {
            0 => self.at(x.wrapping_sub(steps), y),
            1 => self.at(x.wrapping_add(steps), y),
            2 => self.at(x, y.wrapping_sub(steps)),
            _ => self.at(x, y.wrapping_add(steps)),
        }
    }

    /// How many of the four cells beside one have this byte.
    fn count_beside(&self, place: usize, byte: u8) -> usize {
        (0..4)
            .filter(|direction| self.step(place, *direction, 1) == byte)
            .count()
    }

    /// How many cells of a line have this byte.
    fn count_in_line(&self, line: usize, byte: u8) -> usize {
        (0..self.w.max(self.h))
            .filter(|k| self.in_line(line, *k) == byte)
            .count()
    }
}

/// The lengths of the runs of black cells of a line.
fn runs(alloc: Global, grid: &Printed, line: usize) -> Result<Vec<u8>, AllocError> {
    let (mut lengths, mut run) = (Vec::new(alloc), 0u8);
    // one cell past the end of the line ends its last run
    for k in 0..121 {
        if grid.in_line(line, k) == b'#' {
            run = run.saturating_add(1);
        } else if run > 0 {
            lengths.push(run)?;
            run = 0;
        }
    }
    Ok(lengths)
}

/// Whether each line of Pattern has the runs of its clue, and each cell is black or white.
fn solves_pattern(alloc: Global, puzzle: &PatternPuzzle, text: &str) -> Result<bool, AllocError> {
    let (size, grid) = (puzzle.size(), Printed::new(text, puzzle.size()));
    let lines = usize::from(size.w()) + usize::from(size.h());
    for line in 0..lines {
        let lengths = runs(alloc, &grid, line)?;
        let mut same = lengths.len() == puzzle.clue_len(line);
        for k in 0..puzzle.clue_len(line) {
            same &= lengths.get(k) == Some(&puzzle.clue(line, k));
        }
        if !same {
            return Ok(false);
        }
    }
    Ok((0..size.cells()).all(|place| matches!(grid.get(place), b'#' | b'.')))
}

/// How many bulbs a cell sees in a direction, where black cells end the view.
fn bulbs_seen(grid: &Printed, place: usize, direction: usize) -> usize {
    let mut seen = 0usize;
    for steps in 1..121 {
        match grid.step(place, direction, steps) {
            b'O' => seen = seen.saturating_add(1),
            b'.' => {}
            _ => break,
        }
    }
    seen
}

/// Whether a cell of Light Up is as it has to be: a number has so many bulbs beside it, a bulb sees none, and another white
/// cell sees one.
fn is_lit(puzzle: &LightPuzzle, grid: &Printed, place: usize) -> bool {
    if place >= puzzle.size().cells() {
        return false;
    }
    let mut seen = 0usize;
    for direction in 0..4 {
        seen = seen.saturating_add(bulbs_seen(grid, place, direction));
    }
    let byte = grid.get(place);
    match puzzle.cell(place) {
        LightCell::White => byte == b'O' && seen == 0 || byte == b'.' && seen > 0,
        LightCell::Black => byte == b'#',
        LightCell::Numbered(number) => {
            byte == b'0'.saturating_add(number)
                && grid.count_beside(place, b'O') == usize::from(number)
        }
    }
}

/// Whether no tent touches the one at a place, also at a corner.
fn stands_alone(grid: &Printed, place: usize) -> bool {
    let (x, y) = (place % grid.w.max(1), place / grid.w.max(1));
    let mut tents = 0usize;
    for column in x.saturating_sub(1)..x.saturating_add(2) {
        for row in y.saturating_sub(1)..y.saturating_add(2) {
            tents = tents.saturating_add(usize::from(grid.at(column, row) == b'^'));
        }
    }
    tents == 1
}

/// Whether these places share a side.
fn are_beside(w: usize, one: usize, other: usize) -> bool {
    let w = w.max(1);
    let (across, down) = ((one % w).abs_diff(other % w), (one / w).abs_diff(other / w));
    across.saturating_add(down) == 1
}

/// Whether each of so many first tents has a tree beside it that is its own.
fn are_paired(w: usize, tents: &[usize], left: usize, trees: &mut [usize]) -> bool {
    if left == 0 || left > tents.len() {
        return left == 0;
    }
    let tent = tents[left - 1];
    for tree in 0..trees.len() {
        let place = trees[tree];
        if are_beside(w, tent, place) {
            trees[tree] = usize::MAX;
            if are_paired(w, tents, left - 1, trees) {
                return true;
            }
            if tree < trees.len() {
                trees[tree] = place;
            }
        }
    }
    false
}

/// The places with this byte.
fn places(alloc: Global, grid: &Printed, cells: usize, byte: u8) -> Result<Vec<usize>, AllocError> {
    let mut found = Vec::new(alloc);
    for place in 0..cells {
        if grid.get(place) == byte {
            found.push(place)?;
        }
    }
    Ok(found)
}

/// Whether each line of Tents has as many tents as its number says, no two touch, and each has a tree of its own.
fn solves_tents(alloc: Global, puzzle: &TentsPuzzle, text: &str) -> Result<bool, AllocError> {
    let (size, grid) = (puzzle.size(), Printed::new(text, puzzle.size()));
    for line in 0..usize::from(size.w()) + usize::from(size.h()) {
        if grid.count_in_line(line, b'^') != usize::from(puzzle.count(line)) {
            return Ok(false);
        }
    }
    for place in 0..size.cells() {
        let fine = match grid.get(place) {
            b'T' => puzzle.tree(place),
            b'^' => !puzzle.tree(place) && stands_alone(&grid, place),
            byte => byte == b'.' && !puzzle.tree(place),
        };
        if !fine {
            return Ok(false);
        }
    }
    let tents = places(alloc, &grid, size.cells(), b'^')?;
    let mut trees = places(alloc, &grid, size.cells(), b'T')?;
    Ok(tents.len() == trees.len() && are_paired(grid.w, &tents, tents.len(), &mut trees))
}

/// The numbers of a grid of Solo.
fn numbers(alloc: Global, text: &str) -> Result<Vec<u8>, Fail> {
    let mut all = Vec::new(alloc);
    for word in text.split_whitespace() {
        all.push(word.parse::<u8>()?)?;
    }
    Ok(all)
}

/// Cells from one on: so many lie one after another, a step apart, and then come the next ones.
type Cells = (usize, usize, usize, usize);

/// Whether n cells of a grid have each of the numbers from 1 to n.
fn has_each(numbers: &[u8], n: usize, (first, along, step, next): Cells) -> bool {
    let (mut seen, mut wanted, along) = (0u64, 0u64, along.max(1));
    for k in 0..n {
        wanted |= 2 << (k % 63);
        let before = (k / along).saturating_mul(next);
        let offset = (k % along).saturating_mul(step);
        let place = first.saturating_add(before).saturating_add(offset);
        match numbers.get(place) {
            Some(number) if *number >= 1 && *number < 64 => seen |= 1 << *number,
            _ => return false,
        }
    }
    seen == wanted
}

/// Whether each row, column and block with this number, counted from 0, has each number.
fn are_whole(numbers: &[u8], puzzle: &SoloPuzzle, line: usize) -> bool {
    let (n, c, r) = (
        usize::from(puzzle.n()),
        usize::from(puzzle.c()).max(1),
        usize::from(puzzle.r()),
    );
    let (top, left) = ((line / c).saturating_mul(c), (line % c).saturating_mul(r));
    [
        (line.saturating_mul(n), n, 1, 0),
        (line, n, n, 0),
        (top.saturating_mul(n).saturating_add(left), r, 1, n),
    ]
    .iter()
    .all(|cells| has_each(numbers, n, *cells))
}

/// Whether each house of Solo has each number, and each given stands.
fn solves_solo(alloc: Global, puzzle: &SoloPuzzle, text: &str) -> Result<bool, Fail> {
    let (numbers, n) = (numbers(alloc, text)?, usize::from(puzzle.n()));
    let mut fine = numbers.len() == n * n;
    for place in 0..n * n {
        let given = puzzle.given(place);
        fine &= given == 0 || numbers.get(place) == Some(&given);
    }
    let (falling, rising) = (
        (0, n, n + 1, 0),
        (n.saturating_sub(1), n, n.saturating_sub(1), 0),
    );
    for cells in [falling, rising] {
        fine &= !puzzle.x() || has_each(&numbers, n, cells);
    }
    Ok(fine && (0..n).all(|line| are_whole(&numbers, puzzle, line)))
}

/// Whether a printed grid has rows of one byte for each cell of a puzzle of that size.
fn has_size(grid: &str, size: Size) -> bool {
    grid.len() == size.cells().saturating_add(usize::from(size.h()))
}

/// Whether a printed grid solves the puzzle of a game with the ID.
pub fn solves(alloc: Global, game: &str, id: &str, grid: &str) -> Result<bool, Fail> {
    match game {
        "solo" => solves_solo(alloc, &read_solo(alloc, id.as_bytes())?, grid),
        "pattern" => {
            let puzzle = read_pattern(alloc, id.as_bytes())?;
            Ok(has_size(grid, puzzle.size()) && solves_pattern(alloc, &puzzle, grid)?)
        }
        "lightup" => {
            let puzzle = read_lights(alloc, id.as_bytes())?;
            let (size, printed) = (puzzle.size(), Printed::new(grid, puzzle.size()));
            let lit = (0..size.cells()).all(|place| is_lit(&puzzle, &printed, place));
            Ok(has_size(grid, size) && lit)
        }
        _ => {
            let puzzle = read_tents(alloc, id.as_bytes())?;
            Ok(has_size(grid, puzzle.size()) && solves_tents(alloc, &puzzle, grid)?)
        }
    }
}

/// Whether a grid solves the puzzle, or two different ones do that stand with an empty line between them.
fn are_solutions(alloc: Global, game: &str, id: &str, grids: &str) -> Result<bool, Fail> {
    let Some((one, other)) = grids.split_once("\n\n") else {
        return solves(alloc, game, id, grids);
    };
    let ended = format!(in alloc; "{one}\n")?;
    let differ = ended.as_str() != other;
    Ok(differ && solves(alloc, game, id, &ended)? && solves(alloc, game, id, other)?)
}

/// Whether each grid that a run with these words printed solves its puzzle: one or two of an ID, and that of a puzzle that
/// was made.
pub fn prints_solutions(alloc: Global, words: &[String], text: &str) -> Result<bool, Fail> {
    let (Some(command), Some(game), Some(id)) = (words.first(), words.get(1), words.get(2)) else {
        return Ok(true);
    };
    let Some((first, grids)) = text.split_once('\n') else {
        return Ok(true);
    };
    match command.as_str() {
        "generate" if !grids.is_empty() => solves(alloc, game, first, grids),
        "solve" if !grids.is_empty() => are_solutions(alloc, game, id, grids),
        _ => Ok(true),
    }
}

#[test]
fn grids_with_a_fault_solve_nothing(rt: HostRuntime) -> Result<(), Fail> {
    for (game, id, grid, wanted) in [
        (
            "solo",
            "2x2:p",
            "1 2 3 4\n3 4 1 2\n2 1 4 3\n4 3 2 1\n",
            true,
        ),
        (
            "solo",
            "2x2:2o",
            "1 2 3 4\n3 4 1 2\n2 1 4 3\n4 3 2 1\n",
            false,
        ),
        (
            "solo",
            "2x2x:p",
            "1 2 3 4\n3 4 1 2\n2 1 4 3\n4 3 2 1\n",
            false,
        ),
        (
            "solo",
            "2x2:p",
            "1 2 3 4\n2 3 4 1\n3 4 1 2\n4 1 2 3\n",
            false,
        ),
        ("pattern", "2x1:1//1", "#.\n", true),
        ("pattern", "2x1:1//1", ".#\n", false),
        ("pattern", "2x1:1/1/2", "#.\n", false),
        ("lightup", "2x2:2c", "2O\nO.\n", true),
        ("lightup", "2x2:2c", "2O\n..\n", false),
        ("lightup", "2x2:Bc", "#.\n..\n", false),
        ("lightup", "2x2:Bc", "#O\nOO\n", false),
        ("tents", "2x2:_c,0,1,1,0", "T^\n..\n", true),
        ("tents", "2x2:_c,0,1,0,1", "T^\n..\n", false),
        ("tents", "4x2:_bd,0,1,1,0,2,0", "T^^T\n....\n", false),
        (
            "tents",
            "5x3:aiaa,1,0,2,0,0,2,0,1",
            "^T^..\n.....\n.T^T.\n",
            false,
        ),
    ] {
        assert_eq!(rt; solves(rt.alloc(), game, id, grid)?, wanted, "{game} {id}");
    }
    Ok(())
}
