//! Grades of made puzzles of Solo, beside closings and searches.
use crate::tests::fakes::outcome;
use engine_core::{Searchable, Store, Verdict};
use gameid_core::{SoloPuzzle, read_solo};
use solo_core::{SoloCrossings, SoloHouses, SoloSingles};
use std::alloc::{AllocError, Global};
use std::ops::Range;
use std::test::Fail;

/// Whether a closing by the rules settles their puzzle.
fn settles<R: Searchable>(alloc: Global, rules: &R) -> Result<bool, AllocError> {
    let mut store = Store::new(alloc, rules)?;
    Ok(store.settles(rules))
}

/// The name of the first rule set that settles a puzzle of Solo.
fn settled_by(alloc: Global, puzzle: &SoloPuzzle) -> Result<Option<&str>, AllocError> {
    if settles(alloc, &SoloSingles::new(alloc, puzzle)?)? {
        return Ok(Some("singles"));
    }
    if settles(alloc, &SoloHouses::new(alloc, puzzle)?)? {
        return Ok(Some("houses"));
    }
    let settles = settles(alloc, &SoloCrossings::new(alloc, puzzle)?)?;
    Ok(if settles { Some("crossings") } else { None })
}

/// How many trials a search by houses makes that finds one solution.
fn trials(alloc: Global, puzzle: &SoloPuzzle) -> Result<Option<u64>, AllocError> {
    let rules = SoloHouses::new(alloc, puzzle)?;
    let mut store = Store::new(alloc, &rules)?;
    let verdict = store.solve(&rules, 100_000);
    Ok((verdict == Verdict::One).then_some(store.trials()))
}

/// Whether this is the grade of the puzzle of Solo with the ID, which has one solution.
fn is_grade_of(alloc: Global, id: &str, told: &str) -> Result<bool, Fail> {
    let puzzle = read_solo(alloc, id.as_bytes())?;
    if let Some(name) = settled_by(alloc, &puzzle)? {
        return Ok(told == name);
    }
    let digits = told.strip_prefix("search ").ok_or("a search")?;
    Ok(trials(alloc, &puzzle)? == Some(digits.parse::<u64>()?))
}

/// The first line that a run writes.
fn first_line(alloc: Global, words: &[&str]) -> Result<String, Fail> {
    let (written, _) = outcome(alloc, words, b"unread")?;
    let (line, _) = str::from_utf8(written.as_slice())?
        .split_once('\n')
        .ok_or("a line end")?;
    Ok(String::from_str(alloc, line)?)
}

/// The first of these seeds whose puzzle has another grade, and whether some have that of crossings.
fn graded_of(alloc: Global, seeds: Range<usize>) -> Result<(Option<usize>, bool), Fail> {
    let mut crossed = false;
    for seed in seeds {
        let text = format!(in alloc; "{seed}")?;
        let id = first_line(alloc, &["generate", "solo", "3x3", "--seed", &text])?;
        let told = first_line(alloc, &["grade", "solo", &id])?;
        if !is_grade_of(alloc, &id, &told)? {
            return Ok((Some(seed), crossed));
        }
        crossed |= told.as_str() == "crossings";
    }
    Ok((None, crossed))
}

#[test]
fn made_puzzles_have_their_grades(rt: HostRuntime) -> Result<(), Fail> {
    for seeds in [1..26, 26..51] {
        assert_eq!(rt; graded_of(rt.alloc(), seeds)?, (None, true));
    }
    Ok(())
}
