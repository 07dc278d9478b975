//! The room of a store, and used stores beside new ones.

use crate::rules::{lights, pattern, solo, tents};
use crate::small::Walked;
use engine_core::{Searchable, Store, Verdict};
use gameid_core::Game;
use grid_core::Grid;
use solo_core::{Crossings, SoloFillings};
use std::alloc::{AllocError, Global};
use std::test::Fail;

/// How many frames, changes, visits, houses that wait and cells of a scope a store has room for, if it has the same after a
/// search, and a new one lends no grid.
fn sizes<R: Searchable>(alloc: Global, rules: &R) -> Result<Option<[usize; 5]>, AllocError> {
    let mut store = Store::new(alloc, rules)?;
    let sizes = store.sizes();
    let lends = store.first().is_some() || store.second().is_some();
    store.solve(rules, 2);
    let same = store.sizes() == sizes && !lends;
    let (frames, trail) = (sizes.frames, sizes.trail);
    Ok(same.then_some([frames, trail, sizes.trace, sizes.queue, sizes.scope]))
}

#[test]
fn stores_have_their_sizes(rt: HostRuntime) -> Result<(), Fail> {
    let lines = pattern(rt.alloc(), "2x2:1/1/1/1")?;
    assert_eq!(rt; sizes(rt.alloc(), &lines)?, Some([4, 8, 8, 4, 2]));
    let diagonals = solo::<SoloFillings>(rt.alloc(), "2x2x:p")?;
    assert_eq!(rt; sizes(rt.alloc(), &diagonals)?, Some([16, 64, 238, 14, 4]));
    let crossings = solo::<Crossings>(rt.alloc(), "2x2:p")?;
    assert_eq!(rt; sizes(rt.alloc(), &crossings)?, Some([16, 64, 604, 28, 6]));
    let local = lights(rt.alloc(), "2x2:2c")?;
    assert_eq!(rt; sizes(rt.alloc(), &local)?, Some([4, 8, 0, 0, 3]));
    Ok(())
}

/// Whether two grids are lent that have the same numbers, or none.
fn are_same(one: Option<&Grid>, other: Option<&Grid>) -> bool {
    match (one, other) {
        (None, None) => true,
        (Some(one), Some(other)) => {
            let cells = one.len().min(other.len());
            one.len() == other.len() && (0..cells).all(|place| one.get(place) == other.get(place))
        }
        _ => false,
    }
}

/// The verdict on the second rules in a store that has searched the first, if it has room for them, and whether a new store
/// counts the same and finds the same grids.
fn searched_after<R: Searchable>(
    alloc: Global,
    first: &R,
    second: &R,
) -> Result<Option<(Verdict, bool)>, AllocError> {
    let (mut used, mut fresh) = (Store::new(alloc, first)?, Store::new(alloc, second)?);
    used.solve(first, 100);
    if !used.fits(second) {
        return Ok(None);
    }
    let verdict = used.solve(second, 100);
    let same = fresh.solve(second, 100) == verdict
        && (used.trials(), used.turns(), used.deepest())
            == (fresh.trials(), fresh.turns(), fresh.deepest())
        && are_same(used.first(), fresh.first())
        && are_same(used.second(), fresh.second());
    Ok(Some((verdict, same)))
}

/// The same of the puzzles with the IDs.
fn solved_after(
    alloc: Global,
    game: Game,
    first: &str,
    second: &str,
) -> Result<Option<(Verdict, bool)>, Fail> {
    Ok(match game {
        Game::Solo => searched_after::<solo_core::SoloHouses>(
            alloc,
            &solo(alloc, first)?,
            &solo(alloc, second)?,
        )?,
        Game::Pattern => searched_after(alloc, &pattern(alloc, first)?, &pattern(alloc, second)?)?,
        Game::LightUp => searched_after(alloc, &lights(alloc, first)?, &lights(alloc, second)?)?,
        Game::Tents => searched_after(alloc, &tents(alloc, first)?, &tents(alloc, second)?)?,
    })
}

const WHITE: &str = "12x12:zzzzzn";

/// As many cells in two rows.
const LONG: &str = "72x2:aBBBBBBBBBBBBBBBBBBBBBBBBBBBBBBBBBBBBBBBBBBBBBBBBBBBBBBBBBBBBBBBBBBBBBBB\
    BBBBBBBBBBBBBBBBBBBBBBBBBBBBBBBBBBBBBBBBBBBBBBBBBBBBBBBBBBBBBBBBBBBBBBBB";

/// As many cells: column 0 has a white one with a bulb, and column 64 one without, beside the 0, and one with a bulb below it.
const APART: &str =
    "72x2:aBBBBBBBBBBBBBBBBBBBBBBBBBBBBBBBBBBBBBBBBBBBBBBBBBBBBBBBBBBBBBB0aBBBBBBBBBB\
    BBBBBBBBBBBBBBBBBBBBBBBBBBBBBBBBBBBBBBBBBBBBBBBBBBBBBBBBBBBBBaBBBBBBB";

const WIDE: &str = "6x4:hbdbd,1,0,0,1,1,1,1,1,0,2";

const TALL: &str = "4x6:am_f_,1,1,1,1,0,1,1,0,0,2";

const HALF: &str = "2x2:1_2_3_4_3_4_1_2h";

/// Without one of these givens.
const LESS: &str = "2x2:1_2_3_4_3a1_2h";

const ONE: Option<Verdict> = Some(Verdict::One);

const SEVERAL: Option<Verdict> = Some(Verdict::Several);

/// Puzzles, and the verdict on the second in a store of the first, if it has room.
static USED: [(Game, &str, &str, Option<Verdict>); 11] = [
    (Game::Solo, HALF, LESS, SEVERAL),
    (Game::Pattern, "2x2:1/1/1/1", "2x2:2/2/2/2", ONE),
    (Game::Pattern, "2x2:1/1/1/1", "2x3:////", None),
    (Game::LightUp, "2x2:2c", "2x2:Bc", SEVERAL),
    (Game::LightUp, WHITE, LONG, ONE),
    (Game::LightUp, WHITE, APART, ONE),
    (Game::LightUp, LONG, LONG, ONE),
    (Game::LightUp, LONG, WHITE, None),
    (Game::Tents, WIDE, TALL, ONE),
    (Game::Tents, TALL, WIDE, ONE),
    (Game::Tents, "5x3:aiaa,1,0,2,0,0,2,0,1", WIDE, None),
];

#[test]
fn used_stores_serve_as_new_ones(rt: HostRuntime) -> Result<(), Fail> {
    for &(game, first, second, verdict) in USED.iter() {
        let told = solved_after(rt.alloc(), game, first, second)?;
        let same = verdict.map(|verdict| (verdict, true));
        assert_eq!(rt; told, same, "{game:?} {second}");
    }
    Ok(())
}

/// How a search with a budget ends in a store that has made the whole search: the verdict, the trials, and the most that are
/// open at once.
fn searched<R: Searchable>(alloc: Global, rules: &R, budget: u64) -> Result<Walked, AllocError> {
    let mut store = Store::new(alloc, rules)?;
    store.solve(rules, 100);
    let verdict = store.solve(rules, budget);
    Ok((verdict, store.trials(), store.deepest()))
}

/// The same of the puzzle of a game with the ID.
fn walked(alloc: Global, game: Game, id: &str, budget: u64) -> Result<Walked, Fail> {
    Ok(match game {
        Game::Solo => searched(alloc, &solo::<SoloFillings>(alloc, id)?, budget)?,
        Game::Pattern => searched(alloc, &pattern(alloc, id)?, budget)?,
        Game::LightUp => searched(alloc, &lights(alloc, id)?, budget)?,
        Game::Tents => searched(alloc, &tents(alloc, id)?, budget)?,
    })
}

const NONE_FOUND: Verdict = Verdict::GaveUp { found: false };

const ONE_FOUND: Verdict = Verdict::GaveUp { found: true };

/// Short walks with the budget that is enough, and with less.
static BUDGETS: [(Game, &str, u64, Walked); 9] = [
    (Game::Pattern, "2x2:1/1/1/1", 2, (Verdict::Several, 2, 1)),
    (Game::Pattern, "2x2:1/1/1/1", 1, (ONE_FOUND, 1, 1)),
    (Game::Pattern, "2x2:1/1/1/1", 0, (NONE_FOUND, 0, 0)),
    (Game::Solo, "2x2:p", 8, (Verdict::Several, 8, 7)),
    (Game::Solo, "2x2:p", 7, (ONE_FOUND, 7, 7)),
    (Game::LightUp, "3x3:aBBa1aBb", 4, (Verdict::One, 4, 2)),
    (Game::LightUp, "3x3:aBBa1aBb", 3, (ONE_FOUND, 3, 2)),
    (Game::LightUp, "3x3:aBBa1aBb", 1, (ONE_FOUND, 1, 1)),
    (Game::LightUp, "3x3:aBBa1aBb", 0, (NONE_FOUND, 0, 0)),
];

#[test]
fn less_than_a_walk_is_given_up(rt: HostRuntime) -> Result<(), Fail> {
    for &(game, id, budget, stated) in BUDGETS.iter() {
        assert_eq!(rt;
            walked(rt.alloc(), game, id, budget)?,
            stated,
            "{id} {budget}"
        );
    }
    Ok(())
}
