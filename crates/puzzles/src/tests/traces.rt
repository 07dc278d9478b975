//! Traces of grades, whose visits and sweeps are made again.
ghost use Rattle.std.specs.Prelude.{IfOk};
ghost use Rattle.engine_core.specs.RuleSystem.{IsBoardOf};

use crate::tests::fakes::outcome;
use engine_core::{Mode, Rules, Searchable, Store};
use fields_core::{LightRules, TentRules};
use gameid_core::{SoloPuzzle, read_lights, read_pattern, read_solo, read_tents};
use grid_core::Board;
use pattern_core::PatternLines;
use solo_core::{SoloCrossings, SoloHouses, SoloSingles};
use std::alloc::{AllocError, Global};
use std::test::Fail;

/// Solo 2x2 with all of a solution given.
const GIVEN: &str = "2x2:1_2_3_4_3_4_1_2_2_1_4_3_4_3_2_1";

/// Single values and single places leave cells open here, and whole houses don't.
const PAIRED: &str = "2x3:5c3c4d1a3g6a6a4c5_2c";

/// The crossings of Solo 2x2, in the order of their numbers.
const CROSSINGS: &str = "\
block 0 row 0|block 0 row 1|block 1 row 0|block 1 row 1|\
block 2 row 2|block 2 row 3|block 3 row 2|block 3 row 3|\
block 0 column 0|block 0 column 1|block 1 column 2|block 1 column 3|\
block 2 column 0|block 2 column 1|block 3 column 2|block 3 column 3";

/// The number of what a line names: a house, where the houses of these kinds follow one another, or
/// a crossing of Solo 2x2, where those come after so many houses.
fn number_in(line: &str, kinds: &[&str], per_kind: usize, houses: usize) -> Option<usize> {
    if let Some(crossing) = CROSSINGS.split('|').position(|name| name == line) {
        return houses.checked_add(crossing);
    }
    let (kind, digit) = line.split_once(' ')?;
    let number = digit.parse::<usize>().ok()?;
    let before = kinds.iter().position(|k| *k == kind)?;
    let house = before.checked_mul(per_kind)?.checked_add(number)?;
    if digit.len() == 1 && number < per_kind && house < houses {
        Some(house)
    } else {
        None
    }
}

/// The start board after visits of these houses, the most visits one after another that struck nothing, and how many there
/// were when a cell had no value left.
fn replayed<R: Rules>(
    alloc: Global,
    rules: &R,
    visits: &[usize],
) -> Result<(Board, usize, usize), AllocError>
    ensures { IfOk result (λ told. IsBoardOf (R.system rules.now) told.0) }
{
    let mut board = Board::new(alloc, rules.cells(), rules.values())?;
    let mut scratch = rules.scratch(alloc)?;
    let (mut idle, mut most_idle, mut late) = (0usize, 0usize, 0usize);
    rules.start(&mut board);
    for house in visits {
        if *house < rules.houses() {
            late = late.saturating_add(usize::from(board.has_empty_cell()));
            let struck = rules.visit(*house, &mut board, &mut scratch);
            idle = if struck { 0 } else { idle.saturating_add(1) };
            most_idle = most_idle.max(idle);
        }
    }
    Ok((board, most_idle, late))
}

/// Whether both boards of a puzzle have the same values in the same cells.
fn are_same<R: Rules>(rules: &R, one: &Board, other: &Board) -> bool
    requires one { IsBoardOf (R.system rules.now) one.now }
    requires other { IsBoardOf (R.system rules.now) other.now }
{
    for place in 0..rules.cells() {
        if one.bits(place) != other.bits(place) {
            return false;
        }
    }
    true
}

/// Whether a closing by the rules leaves the board that these visits leave, and no house was visited twice without a strike
/// between, or once a cell had no value left. A sweep is made to its end.
fn is_closed_by<R: Searchable>(
    alloc: Global,
    rules: &R,
    visits: &[usize],
) -> Result<bool, AllocError> {
    let (board, most_idle, late) = replayed(alloc, rules, visits)?;
    let mut store = Store::new(alloc, rules)?;
    store.close(rules);
    let is_over = late == 0 || matches!(R::MODE, Mode::Sweep);
    Ok(is_over && most_idle <= rules.houses() && are_same(rules, &board, store.board()))
}

/// Whether these visits, within the bound, close the board of a puzzle, and whether no visits do, as is told. Sweeps have the
/// bound together.
fn closes<R: Searchable>(
    alloc: Global,
    rules: &R,
    visits: &[usize],
    by_none: bool,
) -> Result<bool, AllocError> {
    let houses = rules.houses();
    let most = match R::MODE {
        Mode::Queue => rules.bound(),
        Mode::Sweep => rules.bound().saturating_mul(houses),
    };
    let are_visits = visits.len() <= most && visits.iter().all(|visit| *visit < houses);
    let is_closed = is_closed_by(alloc, rules, visits)?;
    Ok(are_visits && is_closed && is_closed_by(alloc, rules, &[])? == by_none)
}

/// The status of a grade.
fn status_of(grade: &str) -> u8 {
    match grade {
        "none" => 1,
        "several" => 3,
        "gave up" => 4,
        _ => 0,
    }
}

/// What a grade with a trace tells after this line.
fn traced(alloc: Global, [game, id, budget, grade]: [&str; 4]) -> Result<String, Fail> {
    let words = ["grade", game, id, "--budget", budget, "--trace"];
    let (taken, status) = outcome(alloc, &words, b"unread")?;
    if status != status_of(grade) {
        return Ok(Err("the status of the grade")?);
    }
    let text = str::from_utf8(taken.as_slice())?;
    let rest = text.strip_prefix(grade).ok_or("the grade")?;
    Ok(String::from_str(alloc, rest.strip_prefix('\n').ok_or("a line end")?)?)
}

/// The visits that these lines tell, of so many houses of each of these kinds, and of crossings.
fn visits_in(
    alloc: Global,
    lines: &str,
    kinds: &[&str],
    per_kind: usize,
    houses: usize,
) -> Result<Vec<usize>, Fail> {
    let mut visits = Vec::new(alloc);
    for line in lines.lines() {
        visits.push(number_in(line, kinds, per_kind, houses).ok_or("a name")?)?;
    }
    Ok(visits)
}

/// Whether the visits that these lines tell close the board of a puzzle of Pattern.
fn pattern_closes(alloc: Global, id: &str, lines: &str, by_none: bool) -> Result<bool, Fail> {
    let puzzle = read_pattern(alloc, id.as_bytes())?;
    let columns = usize::from(puzzle.size().w());
    let rules = PatternLines::new(alloc, &puzzle)?;
    let visits = visits_in(alloc, lines, &["column", "row"], columns, rules.houses())?;
    Ok(closes(alloc, &rules, &visits, by_none)?)
}

#[test]
fn traces_of_pattern_close_their_boards(rt: HostRuntime) -> Result<(), Fail> {
    for (id, budget, grade, by_none) in [
        ("5x1:1/1//1/1/2.2", "0", "lines", false),
        ("3x2:1/2/1/2/2", "2", "several", false),
        ("3x2:1/2/1/2/2", "0", "gave up", false),
        ("2x1:1/1/1", "0", "none", false),
        ("2x2:1/1/1/1", "100000", "several", true),
        ("2x2:1/1/1/1", "1", "gave up", true),
    ] {
        let lines = traced(rt.alloc(), ["pattern", id, budget, grade])?;
        let is_closed = pattern_closes(rt.alloc(), id, &lines, by_none)?;
        assert!(rt; is_closed, "{id} with {budget}");
    }
    Ok(())
}

/// IDs of Solo with their grades, how many houses of a kind there are, and how many houses.
const SOLOS: [(&str, &str, usize, usize); 6] = [
    (GIVEN, "singles", 4, 12),
    ("2x2x:1_2_3_4_3k", "singles", 4, 14),
    (PAIRED, "houses", 6, 18),
    ("2x2:1o", "gave up", 4, 12),
    ("2x2:1_1n", "none", 4, 12),
    ("2x2x:1o", "gave up", 4, 14),
];

/// Whether these visits close the board of a puzzle of Solo, by the rules of its grade.
fn solo_closes(
    alloc: Global,
    puzzle: &SoloPuzzle,
    grade: &str,
    visits: &[usize],
    by_none: bool,
) -> Result<bool, AllocError> {
    match grade {
        "singles" => closes(alloc, &SoloSingles::new(alloc, puzzle)?, visits, by_none),
        "houses" => closes(alloc, &SoloHouses::new(alloc, puzzle)?, visits, by_none),
        _ => closes(alloc, &SoloCrossings::new(alloc, puzzle)?, visits, by_none),
    }
}

/// The visits that are told of a puzzle of Solo.
fn solo_visits(
    alloc: Global,
    (id, grade, per_kind, houses): (&str, &str, usize, usize),
) -> Result<Vec<usize>, Fail> {
    let lines = traced(alloc, ["solo", id, "0", grade])?;
    let kinds = ["row", "column", "block", "diagonal"];
    visits_in(alloc, &lines, &kinds, per_kind, houses)
}

#[test]
fn traces_of_solo_close_their_boards(rt: HostRuntime) -> Result<(), Fail> {
    for solo in SOLOS {
        let visits = solo_visits(rt.alloc(), solo)?;
        let (id, grade, _, _) = solo;
        let puzzle = read_solo(rt.alloc(), id.as_bytes())?;
        let is_closed = solo_closes(rt.alloc(), &puzzle, grade, &visits, id == GIVEN)?;
        assert!(rt; is_closed, "{id}");
    }
    Ok(())
}

/// How many sweeps a grade with a trace tells.
fn sweeps_told(alloc: Global, words: [&str; 4]) -> Result<usize, Fail> {
    let lines = traced(alloc, words)?;
    let number = lines.strip_prefix("sweeps ").ok_or("sweeps")?;
    let digits = number.strip_suffix('\n').ok_or("a line end")?;
    Ok(digits.parse::<usize>()?)
}

/// The visits of so many sweeps.
fn swept<R: Rules>(alloc: Global, rules: &R, sweeps: usize) -> Result<Vec<usize>, AllocError> {
    let mut visits = Vec::new(alloc);
    for _sweep in 0..sweeps {
        for house in 0..rules.houses() {
            visits.push(house)?;
        }
    }
    Ok(visits)
}

/// Whether so many sweeps close the board of a puzzle by these rules, none leave it open, and all but the last strike something.
fn sweeps_close<R: Searchable>(
    alloc: Global,
    rules: &R,
    sweeps: usize,
) -> Result<bool, AllocError> {
    let visits = swept(alloc, rules, sweeps)?;
    let struck = visits.len().saturating_sub(rules.houses());
    let before = struck.saturating_sub(rules.houses());
    let (early, _, _) = replayed(alloc, rules, &visits[..before.min(visits.len())])?;
    let (late, _, _) = replayed(alloc, rules, &visits[..struck.min(visits.len())])?;
    let needed = before == struck || !are_same(rules, &early, &late);
    Ok(needed && closes(alloc, rules, &visits, false)?)
}

/// The rules of a puzzle of Light Up.
fn light_rules(alloc: Global, id: &str) -> Result<LightRules, Fail> {
    Ok(LightRules::new(alloc, &read_lights(alloc, id.as_bytes())?)?)
}

/// The rules of a puzzle of Tents.
fn tent_rules(alloc: Global, id: &str) -> Result<TentRules, Fail> {
    Ok(TentRules::new(alloc, &read_tents(alloc, id.as_bytes())?)?)
}

/// Whether so many sweeps close the board of a puzzle of Light Up or Tents.
fn game_closes(alloc: Global, game: &str, id: &str, sweeps: usize) -> Result<bool, Fail> {
    Ok(match game {
        "lightup" => sweeps_close(alloc, &light_rules(alloc, id)?, sweeps)?,
        _ => sweeps_close(alloc, &tent_rules(alloc, id)?, sweeps)?,
    })
}

#[test]
fn sweeps_close_their_boards(rt: HostRuntime) -> Result<(), Fail> {
    // The second has the first beside a part that no deduction decides.
    for (game, id, budget, grade) in [
        ("lightup", "2x2:2c", "0", "local"),
        ("lightup", "5x2:2aBBcBb", "100000", "several"),
        ("lightup", "5x2:2aBBcBb", "0", "gave up"),
        ("lightup", "2x2:3c", "0", "none"),
        ("tents", "2x2:_c,0,1,1,0", "0", "local"),
        ("tents", "5x3:aiaa,1,0,2,0,0,2,0,1", "0", "none"),
    ] {
        let sweeps = sweeps_told(rt.alloc(), [game, id, budget, grade])?;
        let is_closed = game_closes(rt.alloc(), game, id, sweeps)?;
        assert!(rt; is_closed, "{game} {id} with {budget}");
    }
    Ok(())
}
