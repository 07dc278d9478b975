//! A store beside the plain programs: how it closes and searches a small puzzle.

ghost use Rattle.engine_core.specs.RuleSystem.{FitsIn, needs_of};

use super::puzzles::Small;
use super::walk::{Walk, grid_of, has_empty_cell, pick};
use super::{CELLS, Numbers, Sets};
use engine_core::{Closing, HouseRules, Mode, Noted, Rules, Searchable, Store, Verdict};
use gameid_core::SoloPuzzle;
use grid_core::{Board, Grid};
use std::alloc::{AllocError, Global};

/// Whether the board that the store's last closing left has these sets.
fn has_sets<R: Searchable>(store: &Store<R>, rules: &R, sets: &Sets) -> bool
    requires { FitsIn (needs_of (R.system rules.now)) store.now.made }
{
    for cell in 0..rules.cells().min(CELLS) {
        for value in 0..rules.values().min(6) {
            if store.board().has(cell, value) != sets[cell][usize::from(value)] {
                return false;
            }
        }
    }
    true
}

/// Whether the store's last closing, of a board with these sets, went as the plain one, and tells of no search. It made a
/// visit or a sweep exactly where each cell had a value before.
fn is_closed<R: Searchable>(
    store: &Store<R>,
    rules: &R,
    closing: Closing,
    small: &Small,
    sets: &Sets,
) -> bool
    requires { FitsIn (needs_of (R.system rules.now)) store.now.made }
{
    let plain = small.closure(sets);
    let dead = has_empty_cell(&plain, small.cells);
    let (turns, others) = match R::MODE {
        Mode::Queue => (store.trace().len(), store.sweeps()),
        Mode::Sweep => (store.sweeps(), store.trace().len()),
    };
    let counted = others == 0 && turns <= rules.bound();
    let searched = (store.trials(), store.turns(), store.deepest()) != (0, 0, 0);
    let lent = store.first().is_some() || store.second().is_some();
    (closing == Closing::Dead) == dead
        && (dead || has_sets(store, rules, &plain))
        && counted
        && (turns == 0) == has_empty_cell(sets, small.cells)
        && !searched
        && !lent
}

/// Whether the start board is closed and settled as by the plain program.
fn start_closes<R: Searchable>(store: &mut Store<R>, rules: &R, small: &Small) -> bool
    requires { FitsIn (needs_of (R.system rules.now)) store.old.made }
{
    let closing = store.close(rules);
    let plain = small.closure(&small.start);
    let full = closing == Closing::Open && pick(&plain, small.cells).is_none();
    is_closed(store, rules, closing, small, &small.start)
        && store.settles(rules) == (full && small.accepts(&grid_of(&plain)))
}

/// Whether the start board without the last value in a cell is closed as by the plain program.
fn closes_without<R: Searchable>(
    alloc: Global,
    store: &mut Store<R>,
    rules: &R,
    small: &Small,
    cell: usize,
) -> Result<bool, AllocError>
    requires { FitsIn (needs_of (R.system rules.now)) store.old.made }
{
    let last = rules.values().saturating_sub(1);
    if cell >= rules.cells().min(CELLS) || last >= 6 {
        return Ok(false);
    }
    let mut board = Board::new(alloc, rules.cells(), rules.values())?;
    rules.start(&mut board);
    board.strike(cell, last);
    let mut sets = small.start;
    sets[cell][usize::from(last)] = false;
    let closing = store.close_from(rules, &board);
    Ok(is_closed(store, rules, closing, small, &sets))
}

/// Whether the grid of so many cells that is lent is the one found, or neither is there.
fn is_same(lent: Option<&Grid>, found: &Option<Numbers>, cells: usize) -> bool {
    match (lent, found) {
        (None, None) => true,
        (Some(grid), Some(numbers)) => {
            grid.len() == cells
                && (0..cells.min(CELLS)).all(|place| usize::from(grid.get(place)) == numbers[place])
        }
        _ => false,
    }
}

/// Whether the rules go by visits, and none strikes anything from the start board: its closing can do without any then.
fn starts_closed<R: Searchable>(small: &Small) -> bool {
    match R::MODE {
        Mode::Queue => small.closure(&small.start) == small.start,
        Mode::Sweep => false,
    }
}

/// The most turns of a search with so many trials. A closing that strikes nothing makes one sweep, or one visit of each
/// house.
fn most_turns<R: Searchable>(rules: &R, small: &Small, trials: u128) -> u128 {
    let first = match R::MODE {
        _ if small.closure(&small.start) != small.start => rules.bound(),
        Mode::Queue => rules.houses(),
        Mode::Sweep => 1,
    };
    trials
        .saturating_mul(rules.bound() as u128)
        .saturating_add(first as u128)
}

/// Whether a search with the budget goes as the walk does. Each trial is closed by a visit or a sweep at least. So is the
/// start, unless visits strike nothing from it: no start of these games has a cell without a value.
fn goes_as_the_walk<R: Searchable>(
    store: &mut Store<R>,
    rules: &R,
    small: &Small,
    budget: u64,
) -> bool
    requires { FitsIn (needs_of (R.system rules.now)) store.old.made }
{
    let verdict = store.solve(rules, budget);
    let walk = Walk::new(small, budget);
    let trials = u128::from(walk.trials);
    verdict == walk.verdict()
        && (store.trials(), store.deepest()) == (walk.trials, walk.deepest)
        && (store.turns() > trials || (starts_closed::<R>(small) && store.turns() == trials))
        && store.turns() <= most_turns(rules, small, trials)
        && is_same(store.first(), &walk.first, small.cells)
        && is_same(store.second(), &walk.second, small.cells)
}

/// Writes these numbers into a grid.
pub(crate) fn write_numbers(grid: &mut Grid, numbers: &Numbers) {
    for place in 0..CELLS {
        if place < grid.len() {
            grid.set(place, numbers[place].min(255) as u8);
        }
    }
}

/// Whether two solutions are found near the first of the walk where it has two, and none without a turn. Of more than two
/// values the walk may come to the first again, and then says nothing.
fn finds_two_as_the_walk<R: Searchable>(
    alloc: Global,
    store: &mut Store<R>,
    rules: &R,
    walk: &Walk,
) -> Result<bool, AllocError>
    requires { FitsIn (needs_of (R.system rules.now)) store.old.made }
{
    let near = walk.first.unwrap_or([0; CELLS]);
    let mut grid = Grid::new(alloc, rules.cells())?;
    write_numbers(&mut grid, &near);
    if grid.len() != rules.cells() {
        return Ok(false);
    }
    let none = store.finds_two(rules, &grid, 0);
    let found = store.finds_two(rules, &grid, 1_000);
    let said = found || rules.values() == 2;
    Ok(!none && (!said || found == walk.second.is_some()))
}

/// The verdict and the trials of the whole walk, and the most that are open at once.
pub(crate) type Walked = (Verdict, u64, usize);

/// Whether one store closes the start board, and boards without the last value in a cell, as the plain program does.
fn closes_as_plain<R: Searchable>(
    alloc: Global,
    store: &mut Store<R>,
    rules: &R,
    small: &Small,
) -> Result<bool, AllocError> {
    let step = if small.cells > 16 { 7 } else { 1 };
    for cell in (0..small.cells).step_by(step) {
        if !store.fits(rules) || !closes_without(alloc, store, rules, small, cell)? {
            return Ok(false);
        }
    }
    Ok(store.fits(rules) && start_closes(store, rules, small))
}

/// How many of the grids that the start allows are solutions, if the rules accept these alone.
fn solutions<R: Rules>(
    alloc: Global,
    rules: &R,
    small: &Small,
) -> Result<Option<usize>, AllocError> {
    let mut scratch = rules.scratch(alloc)?;
    let mut grid = Grid::new(alloc, rules.cells())?;
    let mut count = 0usize;
    for number in 0..small.grids() {
        let numbers = small.grid_at(number);
        write_numbers(&mut grid, &numbers);
        let is_solution = small.accepts(&numbers);
        if !grid.fits(rules.cells(), rules.values())
            || rules.accept(&mut scratch, &grid) != is_solution
        {
            return Ok(None);
        }
        count = count.saturating_add(usize::from(is_solution));
    }
    Ok(Some(count))
}

/// Whether the verdict is that of all grids, tried one by one, if they are few.
fn is_counted<R: Rules>(
    alloc: Global,
    rules: &R,
    small: &Small,
    verdict: Verdict,
) -> Result<bool, AllocError> {
    if small.grids() > 5_000 {
        return Ok(true);
    }
    Ok(match solutions(alloc, rules, small)? {
        Some(0) => verdict == Verdict::None,
        Some(1) => verdict == Verdict::One,
        Some(_) => verdict == Verdict::Several,
        None => false,
    })
}

/// These, if all grids tell the verdict, and one store closes and searches the puzzle as the plain programs do, with each
/// budget down from one past the trials.
pub(crate) fn plain_trials<R: Searchable>(
    alloc: Global,
    rules: &R,
    small: &Small,
) -> Result<Option<Walked>, AllocError> {
    let whole = Walk::new(small, u64::MAX);
    let mut store = Store::new(alloc, rules)?;
    for budget in (0..whole.trials.min(1_000) + 2).rev() {
        if !store.fits(rules) || !goes_as_the_walk(&mut store, rules, small, budget) {
            return Ok(None);
        }
    }
    if !store.fits(rules) || !finds_two_as_the_walk(alloc, &mut store, rules, &whole)? {
        return Ok(None);
    }
    if store.fits(rules) {
        // so that a closing has trials to forget
        store.solve(rules, 1);
    }
    let closes = closes_as_plain(alloc, &mut store, rules, small)?;
    let counted = is_counted(alloc, rules, small, whole.verdict())?;
    Ok((closes && counted).then_some((whole.verdict(), whole.trials, whole.deepest)))
}

/// Whether rules of Solo that no search goes by close the puzzle as the plain program does.
pub(crate) fn set_closes<S: Noted<Puzzle = SoloPuzzle>>(
    alloc: Global,
    puzzle: &SoloPuzzle,
    small: &Small,
) -> Result<bool, AllocError> {
    let rules = HouseRules::<S>::new(alloc, puzzle)?;
    let mut store = Store::new(alloc, &rules)?;
    closes_as_plain(alloc, &mut store, &rules, small)
}
