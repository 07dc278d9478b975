//! Small puzzles of the games, closed and searched as by plain programs.

mod beside;
mod every;
mod houses;
mod puzzles;
mod walk;

pub(crate) use beside::{Walked, plain_trials};
use beside::{set_closes, write_numbers};
use engine_core::Verdict;
use fields_core::{LightRules, TentRules};
use gameid_core::{Game, PatternPuzzle, read_lights, read_pattern, read_solo, read_tents};
use grid_core::{Grid, Size};
pub(crate) use houses::{Condition, House};
use pattern_core::PatternLines;
pub(crate) use puzzles::Small;
use solo_core::{Crossings, Singles, SoloHouses};
use std::alloc::Global;
use std::array::from_fn;
use std::test::Fail;

/// Most cells of such a puzzle.
pub(crate) const CELLS: usize = 36;

/// Most values of a cell.
pub(crate) const VALUES: usize = 6;

/// Some of the cells.
pub(crate) type Cells = [bool; CELLS];

/// Whether each cell still has each value; cells past the puzzle's have none.
pub(crate) type Sets = [[bool; VALUES]; CELLS];

/// A number for each cell.
pub(crate) type Numbers = [usize; CELLS];

/// The same of the puzzle of Solo with the ID, if single values and crossings close it as the plain program does too.
fn solo(alloc: Global, id: &str) -> Result<Option<Walked>, Fail> {
    let puzzle = read_solo(alloc, id.as_bytes())?;
    let singles = Small::solo(&puzzle, Condition::Single, false);
    let crossings = Small::solo(&puzzle, Condition::Different, true);
    if !set_closes::<Singles>(alloc, &puzzle, &singles)?
        || !set_closes::<Crossings>(alloc, &puzzle, &crossings)?
    {
        return Ok(None);
    }
    let rules = SoloHouses::new(alloc, &puzzle)?;
    let small = Small::solo(&puzzle, Condition::Different, false);
    Ok(plain_trials(alloc, &rules, &small)?)
}

/// The same of Pattern.
fn pattern(alloc: Global, id: &str) -> Result<Option<Walked>, Fail> {
    let puzzle = read_pattern(alloc, id.as_bytes())?;
    let rules = PatternLines::new(alloc, &puzzle)?;
    Ok(plain_trials(alloc, &rules, &Small::pattern(&puzzle))?)
}

/// The same of Light Up.
fn lights(alloc: Global, id: &str) -> Result<Option<Walked>, Fail> {
    let puzzle = read_lights(alloc, id.as_bytes())?;
    let rules = LightRules::new(alloc, &puzzle)?;
    Ok(plain_trials(alloc, &rules, &Small::lights(&puzzle))?)
}

/// The same of Tents.
fn tents(alloc: Global, id: &str) -> Result<Option<Walked>, Fail> {
    let puzzle = read_tents(alloc, id.as_bytes())?;
    let rules = TentRules::new(alloc, &puzzle)?;
    Ok(plain_trials(alloc, &rules, &Small::tents(&puzzle))?)
}

/// The same of a game.
fn trials(alloc: Global, game: Game, id: &str) -> Result<Option<Walked>, Fail> {
    match game {
        Game::Solo => solo(alloc, id),
        Game::Pattern => pattern(alloc, id),
        Game::LightUp => lights(alloc, id),
        Game::Tents => tents(alloc, id),
    }
}

/// Puzzles of 16 cells at most, and the verdict on each.
static PUZZLES: [(Game, &str, Verdict); 42] = [
    (Game::Solo, "2x2:1_1n", Verdict::None),
    (Game::Solo, "2x2:d3_4j", Verdict::Several),
    (Game::Solo, "2x2:1c2c3c4c", Verdict::Several),
    (
        Game::Solo,
        "2x2:1_2_3_4_3_4_1_2_2_1_4_3_4_3_2_1",
        Verdict::One,
    ),
    (Game::Solo, "2x2:a1b2c3d4b", Verdict::Several),
    (Game::Solo, "2x2x:1_2_3_4l", Verdict::Several),
    (Game::Solo, "2x2x:1_2_3_4_3k", Verdict::One),
    (Game::Solo, "2x3:5c3c4d1a3g6a6a4c5_2c", Verdict::One),
    (Game::Solo, "2x3x:g2c4c3d1l5b", Verdict::One),
    (Game::Solo, "3x2:5g1a6_5a4c2b3a4a3h6b", Verdict::One),
    (Game::Solo, "3x2x:g2g1d3b5g4d", Verdict::One),
    (Game::Solo, "2x2x:1d1j", Verdict::None),
    (Game::Solo, "2x3:e2_1h1l1g", Verdict::None),
    (Game::Pattern, "2x1:1/1/1", Verdict::None),
    (Game::Pattern, "5x1:1/1//1/1/2.2", Verdict::One),
    (Game::Pattern, "3x2:1/2/1/2/2", Verdict::Several),
    (Game::Pattern, "3x3:2/2/2/1.1/3/1", Verdict::One),
    (Game::Pattern, "4x4:2/2/2/2/2/2/2/2", Verdict::Several),
    (Game::Pattern, "4x4:1.1/1/2/1.1/1/2/1.1/1.1", Verdict::One),
    (Game::Pattern, "4x3:1/1.1/1/1/1/1/1.1", Verdict::None),
    (Game::Pattern, "1x4:1.2/1//1/1", Verdict::One),
    (Game::LightUp, "2x2:d", Verdict::Several),
    (Game::LightUp, "2x2:Bc", Verdict::Several),
    (Game::LightUp, "2x2:1c", Verdict::None),
    (Game::LightUp, "2x2:2c", Verdict::One),
    (Game::LightUp, "2x2:1BBB", Verdict::None),
    (Game::LightUp, "3x3:i", Verdict::Several),
    (Game::LightUp, "4x3:l", Verdict::Several),
    (Game::LightUp, "4x4:p", Verdict::Several),
    (Game::LightUp, "4x4:aBd1c0aBc", Verdict::None),
    (Game::LightUp, "2x2:BBBB", Verdict::One),
    (Game::Tents, "2x2:_c,0,1,1,0", Verdict::One),
    (Game::Tents, "5x3:aiaa,1,0,2,0,0,2,0,1", Verdict::None),
    (Game::Tents, "3x3:aae,1,1,0,1,0,1", Verdict::None),
    (Game::Tents, "4x4:bcag,1,0,1,1,1,0,1,1", Verdict::One),
    (Game::Tents, "4x4:_ebbc,1,1,1,1,2,0,1,1", Verdict::None),
    (Game::Tents, "4x3:dbd,1,0,0,1,1,0,1", Verdict::Several),
    (Game::Tents, "4x4:p,0,0,0,0,0,0,0,0", Verdict::One),
    (Game::Tents, "4x4:abcdb,1,1,1,1,1,1,1,1", Verdict::None),
    (Game::Tents, "4x2:_bd,0,1,1,0,2,0", Verdict::None),
    (Game::Tents, "4x4:abbh,1,0,1,1,2,0,1,0", Verdict::One),
    (Game::Tents, "4x4:_i_d,0,1,1,1,1,1,0,1", Verdict::One),
];

#[test]
fn small_puzzles_go_as_by_plain_programs(rt: HostRuntime) -> Result<(), Fail> {
    for &(game, id, verdict) in PUZZLES.iter() {
        let walked = trials(rt.alloc(), game, id)?;
        let told = walked.map(|(verdict, _, _)| verdict);
        assert_eq!(rt; told, Some(verdict), "{game:?} {id}");
    }
    Ok(())
}

/// Puzzles whose walks are short enough to be followed by hand: the verdict, the trials, and the most that are open at once.
static STATED: [(Game, &str, Walked); 3] = [
    (Game::Pattern, "2x2:1/1/1/1", (Verdict::Several, 2, 1)),
    (Game::Solo, "2x2:p", (Verdict::Several, 8, 7)),
    (Game::LightUp, "3x3:aBBa1aBb", (Verdict::One, 4, 2)),
];

#[test]
fn short_walks_have_their_trials(rt: HostRuntime) -> Result<(), Fail> {
    for &(game, id, stated) in STATED.iter() {
        assert_eq!(rt; trials(rt.alloc(), game, id)?, Some(stated), "{id}");
    }
    Ok(())
}

/// Whether the puzzle whose clues are the runs of the grid with these bits, eight at most, goes as by the plain program. The
/// grid solves it.
fn goes_as_plain(alloc: Global, size: Size, bits: u32) -> Result<bool, Fail> {
    let numbers = from_fn(|place| (bits >> place.min(8) & 1) as usize);
    let mut grid = Grid::new(alloc, size.cells())?;
    write_numbers(&mut grid, &numbers);
    if !grid.fits(size.cells(), 2) {
        return Ok(false);
    }
    let puzzle = PatternPuzzle::of_grid(alloc, size, &grid)?;
    let (rules, small) = (PatternLines::new(alloc, &puzzle)?, Small::pattern(&puzzle));
    Ok(small.accepts(&numbers) && plain_trials(alloc, &rules, &small)?.is_some())
}

#[test]
fn puzzles_of_all_small_grids_go_as_by_the_plain_program(rt: HostRuntime) -> Result<(), Fail> {
    for (w, h) in [(1, 1), (2, 2), (3, 2), (2, 3), (4, 2)] {
        let size = Size::new(w, h).ok_or("a size")?;
        for bits in 0..1u32 << size.cells().min(8) {
            assert!(rt; goes_as_plain(rt.alloc(), size, bits)?, "{w}x{h} of {bits}");
        }
    }
    Ok(())
}
