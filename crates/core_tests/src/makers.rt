//! Puzzles that are made, why clues are left in them, and which can be taken away.

use fields_core::{TentFault, check_tents};
use gameid_core::{LightCell, LightPuzzle, write_lights, write_pattern};
use grid_core::Size;
use maker_core::{
    Clued, Limits, Made, MakeFault, Why, make_lights, make_pattern, make_solo, make_tents,
};
use rand_chacha::ChaCha8Rng;
use rand_core::{Rng, SeedableRng};
use solo_core::{SoloFault, check_solo};
use std::alloc::{AllocError, Global};
use std::test::Fail;

/// The generator that the program has for seed 1: its key is 1, least byte first.
fn generator() -> ChaCha8Rng {
    let mut key = [0; 32];
    key[0] = 1;
    ChaCha8Rng::from_seed(key)
}

/// The first block of ChaCha8 for a key of zeros, as draft-strombergson-chacha-test-vectors has it: its words, least byte first.
const BLOCK: &str = "3e00ef2f895f40d67f5bb8e81f09a5a12c840ec3ce9a7f3b181be188ef711a1e\
    984ce172b9216f419f445367456d5619314a42a3da86b001387bfdb80e0cfe42";

#[test]
fn the_generator_is_chacha8(rt: HostRuntime) -> Result<(), Fail> {
    let mut generator = ChaCha8Rng::from_seed([0; 32]);
    let mut block = String::new(rt.alloc());
    for _word in 0..16 {
        let word = generator.next_u32().swap_bytes();
        block.push_str(&format!(in rt.alloc(); "{word:08x}")?)?;
    }
    assert_eq!(rt; block.as_str(), BLOCK);
    Ok(())
}

/// Whether some givens of a puzzle of Solo, or of Solo X, were left, not all, and each for this reason; and the fault of the
/// answer.
fn all_left(
    alloc: Global,
    x: bool,
    budget: u64,
    why: Why,
) -> Result<(bool, Option<SoloFault>), MakeFault> {
    let limits = Limits { budget, tries: 1 };
    let made = make_solo(alloc, 2, 2, x, &mut generator(), limits)?;
    let all = made.kept.iter().all(|kept| kept.why == why);
    let some = !made.kept.is_empty() && made.kept.len() < 16;
    let same = made.puzzle.x() == x;
    Ok((all && some && same, check_solo(&made.puzzle, &made.answer)))
}

#[test]
fn givens_are_left_for_a_reason(rt: HostRuntime) -> Result<(), Fail> {
    for (x, budget, why) in [
        (false, 0, Why::Budget),
        (false, 100_000, Why::Needed),
        (true, 100_000, Why::Needed),
    ] {
        assert_eq!(rt; all_left(rt.alloc(), x, budget, why)?, (true, None));
    }
    Ok(())
}

/// The fault of a puzzle of Solo that is too small, without a try, and of one of Tents that is too small; and the first word
/// that is drawn after that.
fn too_small(alloc: Global) -> (Option<MakeFault>, Option<MakeFault>, u32) {
    let (budget, tries) = (1_000, 0);
    let limits = Limits { budget, tries };
    let solo = make_solo(alloc, 1, 4, false, &mut generator(), limits).err();
    let (mut rng, size) = (ChaCha8Rng::from_seed([0; 32]), Size::new(3, 3).unwrap());
    let tents = make_tents(alloc, size, &mut rng, limits).err();
    (solo, tents, rng.next_u32().swap_bytes())
}

#[test]
fn sizes_are_refused_before_tries_and_draws(rt: HostRuntime) -> Result<(), Fail> {
    let (solo, tents, word) = too_small(rt.alloc());
    assert!(rt; matches!(solo, Some(MakeFault::SizeRange)));
    assert!(rt; matches!(tents, Some(MakeFault::SizeRange)));
    assert_eq!(rt; word, 0x3e00ef2f);
    Ok(())
}

/// The IDs of what is made of black cells alone, of Pattern and of Light Up, and how many numbers are left.
fn all_black(alloc: Global) -> Result<String, Fail> {
    let (size, budget, tries) = (Size::new(2, 2).unwrap(), 0, 1);
    let limits = Limits { budget, tries };
    let made = make_pattern(alloc, size, 100, &mut generator(), limits)?;
    let pattern = write_pattern(alloc, &made.puzzle)?;
    let made = make_lights(alloc, size, 100, &mut generator(), limits)?;
    let (lights, numbers) = (write_lights(alloc, &made.puzzle)?, made.kept.len());
    Ok(format!(in alloc; "{pattern} {lights} {numbers}")?)
}

/// How many trees there are in what is made of Tents of 6 by 6 cells, and the fault of the answer.
fn tents_made(alloc: Global) -> Result<(usize, Option<TentFault>), MakeFault> {
    let (size, mut rng) = (Size::new(6, 6).unwrap(), generator());
    let (budget, tries) = (1_000, 1_000);
    let made = make_tents(alloc, size, &mut rng, Limits { budget, tries })?;
    let mut trees = 0usize;
    for place in 0..made.puzzle.size().cells() {
        trees = trees.saturating_add(usize::from(made.puzzle.tree(place)));
    }
    Ok((trees, check_tents(alloc, &made.puzzle, &made.answer)?))
}

#[test]
fn puzzles_are_made(rt: HostRuntime) -> Result<(), Fail> {
    assert_eq!(rt; all_black(rt.alloc())?.as_str(), "2x2:2/2/2/2 2x2:BBBB 0");
    let (trees, fault) = tents_made(rt.alloc())?;
    assert!(rt; 1 <= trees && trees <= 7 && fault.is_none());
    Ok(())
}

/// How many cells have a number that is in the list, how many cells are black without a number, and how many cells have a
/// number or are in the list, but not both.
fn numbers(made: &Made<LightPuzzle>) -> [u32; 3] {
    let [mut kept, mut taken, mut wrong] = [0u32; 3];
    for place in 0..made.puzzle.size().cells() {
        let listed = made.kept.iter().any(|clue| clue.place == place);
        let numbered = matches!(made.puzzle.cell(place), LightCell::Numbered(_));
        kept = kept.saturating_add(u32::from(listed && numbered));
        wrong = wrong.saturating_add(u32::from(listed != numbered));
        taken = taken.saturating_add(u32::from(made.puzzle.cell(place) == LightCell::Black));
    }
    [kept, taken, wrong]
}

/// The same of a puzzle of 6 by 6 cells.
fn numbers_of(alloc: Global) -> Result<[u32; 3], MakeFault> {
    let (size, budget, tries) = (Size::new(6, 6).unwrap(), 1_000, 1_000);
    let limits = Limits { budget, tries };
    let made = make_lights(alloc, size, 30, &mut generator(), limits)?;
    Ok(numbers(&made))
}

#[test]
fn numbers_that_are_taken_away_leave_black_cells(rt: HostRuntime) -> Result<(), Fail> {
    let [kept, taken, wrong] = numbers_of(rt.alloc())?;
    assert!(rt; kept > 0 && taken > 0);
    assert_eq!(rt; wrong, 0);
    Ok(())
}

/// The number that is taken away from a cell with a 2, and what the cell is then.
fn taken(alloc: Global) -> Result<Option<(u8, LightCell)>, AllocError> {
    let mut puzzle = LightPuzzle::blank(alloc, Size::new(2, 2).unwrap())?;
    puzzle.set_cell(0, LightCell::Numbered(2));
    if !puzzle.has_clue(0) {
        return Ok(None);
    }
    let number = puzzle.take_clue(0);
    Ok(Some((number, puzzle.cell(0))))
}

#[test]
fn a_number_is_taken_away(rt: HostRuntime) -> Result<(), Fail> {
    assert!(rt; taken(rt.alloc())? == Some((2, LightCell::Black)));
    Ok(())
}
