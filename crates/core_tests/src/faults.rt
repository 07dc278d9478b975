//! Grids with each kind of fault: what the checks tell, and which the rules accept.

use crate::grid::grid_of;
use engine_core::Rules;
use fields_core::{LightRules, TentRules, check_lights, check_tents};
use gameid_core::{Game, read_lights, read_pattern, read_solo, read_tents};
use grid_core::Grid;
use pattern_core::{PatternLines, check_pattern};
use solo_core::{SoloCrossings, SoloHouses, SoloSingles, check_solo};
use std::alloc::{AllocError, Global};
use std::fmt::Debug;
use std::test::Fail;

/// The text of a fault, and whether the rules accept the grid.
fn judged<R: Rules, F: Debug>(
    alloc: Global,
    rules: &R,
    grid: &Grid,
    fault: &F,
) -> Result<(String, bool), AllocError> {
    let mut scratch = rules.scratch(alloc)?;
    let fits = grid.fits(rules.cells(), rules.values());
    let accepted = fits && rules.accept(&mut scratch, grid);
    Ok((format!(in alloc; "{fault:?}")?, accepted))
}

/// What the check says of a grid of Solo, and whether the rules accept it. All three rule sets do alike.
fn solo(alloc: Global, id: &str, grid: &Grid) -> Result<(String, bool), Fail> {
    let puzzle = read_solo(alloc, id.as_bytes())?;
    let n = usize::from(puzzle.n());
    if !grid.fits(n * n, puzzle.n()) {
        return Ok(Err("a grid of Solo")?);
    }
    let fault = check_solo(&puzzle, grid);
    let (_, singles) = judged(alloc, &SoloSingles::new(alloc, &puzzle)?, grid, &fault)?;
    let (_, crossings) = judged(alloc, &SoloCrossings::new(alloc, &puzzle)?, grid, &fault)?;
    let told = judged(alloc, &SoloHouses::new(alloc, &puzzle)?, grid, &fault)?;
    if singles != told.1 || crossings != told.1 {
        return Ok(Err("the same by all rule sets")?);
    }
    Ok(told)
}

/// The same of Pattern.
fn pattern(alloc: Global, id: &str, grid: &Grid) -> Result<(String, bool), Fail> {
    let puzzle = read_pattern(alloc, id.as_bytes())?;
    let rules = PatternLines::new(alloc, &puzzle)?;
    if !grid.fits(puzzle.size().cells(), 2) {
        return Ok(Err("a grid of Pattern")?);
    }
    Ok(judged(alloc, &rules, grid, &check_pattern(&puzzle, grid))?)
}

/// The same of Light Up.
fn lights(alloc: Global, id: &str, grid: &Grid) -> Result<(String, bool), Fail> {
    let puzzle = read_lights(alloc, id.as_bytes())?;
    let rules = LightRules::new(alloc, &puzzle)?;
    if !grid.fits(puzzle.size().cells(), 2) {
        return Ok(Err("a grid of Light Up")?);
    }
    Ok(judged(alloc, &rules, grid, &check_lights(&puzzle, grid))?)
}

/// The same of Tents.
fn tents(alloc: Global, id: &str, grid: &Grid) -> Result<(String, bool), Fail> {
    let puzzle = read_tents(alloc, id.as_bytes())?;
    let rules = TentRules::new(alloc, &puzzle)?;
    if !grid.fits(puzzle.size().cells(), 2) {
        return Ok(Err("a grid of Tents")?);
    }
    let fault = check_tents(alloc, &puzzle, grid)?;
    Ok(judged(alloc, &rules, grid, &fault)?)
}

/// The same of a game, and a grid by its numbers.
fn told(alloc: Global, game: Game, id: &str, numbers: &str) -> Result<(String, bool), Fail> {
    let grid = grid_of(alloc, numbers)?;
    match game {
        Game::Solo => solo(alloc, id, &grid),
        Game::Pattern => pattern(alloc, id, &grid),
        Game::LightUp => lights(alloc, id, &grid),
        Game::Tents => tents(alloc, id, &grid),
    }
}

/// A whole grid of Solo, in which a number stands as one less.
const WHOLE: &str = "0123230110323210";

/// Its first diagonal has each number once, and its second hasn't.
const FALLING: &str = "145302302514413250520431054123231045";

const CAMP: &str = "5x3:aiaa,1,0,2,0,0,2,0,1";

/// The ID of a puzzle, a grid by its numbers, and the fault.
static GRIDS: [(Game, &str, &str, &str); 24] = [
    (Game::Solo, "2x2:p", WHOLE, "None"),
    (Game::Solo, "2x2:2o", WHOLE, "Some(Given(0))"),
    (Game::Solo, "2x2:p", "0123230111320132", "Some(Row(2))"),
    (Game::Solo, "2x2:p", "0123230110320132", "Some(Column(0))"),
    (Game::Solo, "2x2:p", "0123123023013012", "Some(Block(0))"),
    (Game::Solo, "2x2x:p", WHOLE, "Some(Diagonal(0))"),
    (Game::Solo, "2x3x:zj", FALLING, "Some(Diagonal(1))"),
    (Game::Pattern, "2x1:1//1", "10", "None"),
    (Game::Pattern, "2x1:1//1", "01", "Some(Column(0))"),
    (Game::Pattern, "2x2:1/2/2/1", "1000", "Some(Column(1))"),
    (Game::Pattern, "2x1:1/1/1", "11", "Some(Row(0))"),
    (Game::LightUp, "2x2:2c", "0110", "None"),
    (Game::LightUp, "2x2:2c", "1110", "Some(Black(0))"),
    (Game::LightUp, "2x2:2c", "0100", "Some(Number(0))"),
    (Game::LightUp, "2x2:2c", "0111", "Some(Seen(1))"),
    (Game::LightUp, "2x2:Bc", "0000", "Some(Dark(1))"),
    (Game::LightUp, "2x2:BBBB", "0000", "None"),
    (Game::Tents, "2x2:_c,0,1,1,0", "0100", "None"),
    (Game::Tents, "2x2:_c,0,1,1,0", "1100", "Some(Tree(0))"),
    (Game::Tents, "2x2:_c,0,1,1,0", "0110", "Some(Touch(1))"),
    (Game::Tents, "2x2:_c,0,1,1,0", "0010", "Some(Column(0))"),
    (Game::Tents, "2x2:_c,0,1,0,1", "0100", "Some(Row(0))"),
    (Game::Tents, CAMP, "101000000000100", "Some(Match)"),
    (Game::Tents, "2x2:d,0,0,0,0", "0000", "None"),
];

#[test]
fn grids_without_a_fault_are_accepted(rt: HostRuntime) -> Result<(), Fail> {
    for &(game, id, numbers, fault) in GRIDS.iter() {
        let (text, accepted) = told(rt.alloc(), game, id, numbers)?;
        assert_eq!(rt; text.as_str(), fault, "{id} {numbers}");
        assert_eq!(rt; accepted, fault == "None", "{id} {numbers}");
    }
    Ok(())
}
