//! Made puzzles, as the program prints them.
use crate::tests::fakes::outcome;
use crate::tests::solutions::solves;
use gameid_core::{SoloPuzzle, read_solo, write_solo};
use std::alloc::Global;
use std::test::Fail;

/// What a run writes that has status 0.
fn made(alloc: Global, words: &[&str]) -> Result<Vec<u8>, Fail> {
    let (written, status) = outcome(alloc, words, b"unread")?;
    if status != 0 {
        return Ok(Err("a status of 0")?);
    }
    Ok(written)
}

/// Whether a run with this input writes this and has status 0.
fn writes(alloc: Global, words: &[&str], input: &[u8], text: &[u8]) -> Result<bool, Fail> {
    let (written, status) = outcome(alloc, words, input)?;
    Ok(status == 0 && written.as_slice() == text)
}

/// Whether a written ID is of the size, its grid solves it, `solve` answers that alone, and `check` finds it correct.
fn is_solved(alloc: Global, [game, size, budget]: [&str; 3], written: &[u8]) -> Result<bool, Fail> {
    let (id, grid) = str::from_utf8(written)?
        .split_once('\n')
        .ok_or("a line end")?;
    let (own_size, _) = id.split_once(':').ok_or("a colon")?;
    let one = format!(in alloc; "one\n{grid}")?;
    let words = ["solve", game, id, "--budget", budget];
    let is_one = writes(alloc, &words, b"unread", one.as_bytes())?;
    let is_correct = writes(alloc, &["check", game, id], grid.as_bytes(), b"correct\n")?;
    Ok(own_size == size && is_one && is_correct && solves(alloc, game, id, grid)?)
}

/// Whether what a run makes is solved within the budget.
fn makes(alloc: Global, [game, size, seed, budget, tries]: [&str; 5]) -> Result<bool, Fail> {
    let words = [
        "generate", game, size, "--seed", seed, "--budget", budget, "--tries", tries,
    ];
    let written = made(alloc, &words)?;
    is_solved(alloc, [game, size, budget], &written)
}

#[test]
fn made_puzzles_are_solved(rt: HostRuntime) -> Result<(), Fail> {
    for (game, size) in [
        ("solo", "2x2"),
        ("solo", "3x2"),
        ("solo", "2x2x"),
        ("pattern", "5x4"),
        ("lightup", "4x4"),
        ("tents", "4x4"),
        ("tents", "6x6"),
    ] {
        for (seed, budget) in [("1", "100000"), ("2", "50")] {
            let is_fine = makes(rt.alloc(), [game, size, seed, budget, "1000"])?;
            assert!(rt; is_fine, "{game} {size} of {seed}");
        }
    }
    // Without a trial no second grid is found, whichever givens are taken away.
    assert!(rt; makes(rt.alloc(), ["solo", "2x2", "1", "0", "1"])?);
    Ok(())
}

#[test]
fn what_a_search_gave_up_is_not_made(rt: HostRuntime) -> Result<(), Fail> {
    // Of seed 7 the first filling of 2 by 2 cells has two solutions, each one trial away.
    for (game, size) in [("pattern", "2x2"), ("pattern", "3x3"), ("tents", "4x4")] {
        for seed in ["1", "2", "3", "4", "5", "6", "7", "8", "9"] {
            let is_fine = makes(rt.alloc(), [game, size, seed, "1", "1000"])?;
            assert!(rt; is_fine, "{game} {size} of {seed}");
        }
    }
    Ok(())
}

/// The grid of a puzzle of Solo X that is made of seed 28. With three trials no grid is found below the first top row, and nothing
/// is drawn for that. So the grid of the second is flipped by the draw that follows its shuffle.
const FLIPPED: &str =
    "3 5 2 4 6 1\n6 4 1 3 2 5\n2 1 5 6 3 4\n1 6 4 2 5 3\n4 3 6 5 1 2\n5 2 3 1 4 6\n";

#[test]
fn nothing_is_drawn_for_a_row_without_a_grid(rt: HostRuntime) -> Result<(), Fail> {
    let words = ["generate", "solo", "3x2x", "--seed", "28", "--budget", "3"];
    let written = made(rt.alloc(), &words)?;
    let (_, grid) = str::from_utf8(&written)?
        .split_once('\n')
        .ok_or("a line end")?;
    assert_eq!(rt; grid, FLIPPED);
    Ok(())
}

/// Whether `solve` finds two grids of a puzzle of Solo.
fn has_several(alloc: Global, puzzle: &SoloPuzzle) -> Result<bool, Fail> {
    let id = write_solo(alloc, puzzle)?;
    let (_, status) = outcome(alloc, &["solve", "solo", &id], b"unread")?;
    Ok(status == 3)
}

/// How many givens the puzzle of Solo has that a run with these words makes. Without any one of them there are several
/// solutions.
fn needed_givens(alloc: Global, words: &[&str]) -> Result<usize, Fail> {
    let written = made(alloc, words)?;
    let (id, _) = str::from_utf8(&written)?
        .split_once('\n')
        .ok_or("a line end")?;
    let mut puzzle = read_solo(alloc, id.as_bytes())?;
    let (cells, mut givens) = (usize::from(puzzle.n()) * usize::from(puzzle.n()), 0usize);
    for place in 0..cells {
        let n = usize::from(puzzle.n());
        if place >= n * n || puzzle.given(place) == 0 {
            continue;
        }
        let given = puzzle.given(place);
        puzzle.set_given(place, 0);
        if !has_several(alloc, &puzzle)? {
            return Ok(Err("several solutions")?);
        }
        puzzle.set_given(place, given);
        givens = givens.saturating_add(1);
    }
    Ok(givens)
}

#[test]
fn each_given_is_needed(rt: HostRuntime) -> Result<(), Fail> {
    for size in ["2x2", "2x2x"] {
        let words = ["generate", "solo", size, "--seed", "1"];
        assert!(rt; needed_givens(rt.alloc(), &words)? > 0, "{size}");
    }
    Ok(())
}

#[test]
fn a_seed_makes_a_puzzle_of_its_own(rt: HostRuntime) -> Result<(), Fail> {
    for (game, size) in [
        ("solo", "3x3"),
        ("solo", "3x3x"),
        ("pattern", "5x4"),
        ("lightup", "7x7"),
        ("tents", "6x6"),
    ] {
        let first = made(rt.alloc(), &["generate", game, size, "--seed", "1"])?;
        let again = made(rt.alloc(), &["generate", game, size, "--seed", "1"])?;
        assert_eq!(rt; first.as_slice(), again.as_slice(), "{game} {size}");
        for seed in ["2", "3", "4"] {
            let other = made(rt.alloc(), &["generate", game, size, "--seed", seed])?;
            assert!(rt; first.as_slice() != other.as_slice(), "{game} {seed}");
        }
    }
    Ok(())
}
