//! Stores of rules that are no game's: houses told by arithmetic, closed by a queue and by sweeps, and houses told by lists.

mod listed;
mod neighbours;

use crate::small::{Small, Walked, plain_trials};
use engine_core::{Closing, HouseRules, Searchable, Store, Verdict};
use grid_core::Grid;
use listed::Listed;
use neighbours::{ByQueue, BySweeps, Neighbours, Way};
use std::alloc::{AllocError, Global};
use std::test::Fail;

/// Values of five cells, the verdict, the trials, and the most that are open at once.
static ROWS: [(u8, Walked); 3] = [
    (1, (Verdict::None, 0, 0)),
    (2, (Verdict::One, 0, 0)),
    (3, (Verdict::Several, 5, 4)),
];

/// How a store closes and searches a row of five cells, with each budget down from one past the trials, if it does as the
/// plain programs.
fn goes<W: Way>(alloc: Global, values: u8, way: W) -> Result<Option<Walked>, AllocError> {
    if values < 1 || values > 31 {
        return Ok(None);
    }
    let (cells, plain) = (5, Small::row(5, usize::from(values)));
    plain_trials(alloc, &Neighbours { cells, values, way }, &plain)
}

#[test]
fn own_rules_go_as_plain(rt: HostRuntime) -> Result<(), Fail> {
    for &(values, stated) in ROWS.iter() {
        assert_eq!(rt;
            goes(rt.alloc(), values, ByQueue)?,
            Some(stated),
            "{values}"
        );
        assert_eq!(rt;
            goes(rt.alloc(), values, BySweeps)?,
            Some(stated),
            "{values}"
        );
    }
    Ok(())
}

/// How a closing of the start board ended, how many visits it wrote down, how many sweeps it made, and whether the rules are
/// settled by it.
fn closed<R: Searchable>(
    alloc: Global,
    rules: &R,
) -> Result<(Closing, usize, usize, bool), AllocError> {
    let mut store = Store::new(alloc, rules)?;
    let closing = store.close(rules);
    let (visits, sweeps) = (store.trace().len(), store.sweeps());
    Ok((closing, visits, sweeps, store.settles(rules)))
}

/// The same of a row of five cells with two values.
fn row_closed<W: Way>(alloc: Global, way: W) -> Result<(Closing, usize, usize, bool), AllocError> {
    let (cells, values) = (5, 2);
    closed(alloc, &Neighbours { cells, values, way })
}

#[test]
fn own_rules_are_closed(rt: HostRuntime) -> Result<(), Fail> {
    assert_eq!(rt;
        row_closed(rt.alloc(), ByQueue)?,
        (Closing::Open, 4, 0, true)
    );
    assert_eq!(rt;
        row_closed(rt.alloc(), BySweeps)?,
        (Closing::Open, 0, 1, true)
    );
    Ok(())
}

/// Whether the numbers of a lent grid are 0 and 1 in turn, but for the last.
fn is_in_turn(lent: Option<&Grid>, cells: usize, last: u8) -> bool {
    let Some(grid) = lent else {
        return false;
    };
    grid.len() == cells
        && (0..cells).all(|place| {
            let turn = if place % 2 == 0 { 0 } else { 1 };
            grid.get(place) == if place + 1 == cells { last } else { turn }
        })
}

/// How a search of a row ends: the verdict, the trials, and the most that are open at once; and whether the first grid is 0 and
/// 1 in turn, and the second too, but for a 2 in its last cell.
fn long_searched<W: Way>(
    alloc: Global,
    (cells, values): (usize, u8),
    way: W,
    budget: u64,
) -> Result<Option<(Walked, [bool; 2])>, AllocError> {
    if cells < 2 || cells > 65_536 || values < 1 || values > 31 {
        return Ok(None);
    }
    let rules = Neighbours { cells, values, way };
    let mut store = Store::new(alloc, &rules)?;
    let verdict = store.solve(&rules, budget);
    let walked = (verdict, store.trials(), store.deepest());
    let grids = [
        is_in_turn(store.first(), cells, 1),
        is_in_turn(store.second(), cells, 2),
    ];
    Ok(Some((walked, grids)))
}

/// Rows with an even number of cells. A closing takes the first cell's value from the second, which then has the fewest, and a
/// trial there takes its own from the third, and so on. So each trial but the last is of a cell of its own, and takes the least
/// value. One more of the last cell finds a second grid.
static LONG: [(usize, u8, u64, usize); 2] = [(70, 31, 70, 69), (130, 3, 130, 129)];

#[test]
fn long_rows_are_searched_cell_by_cell(rt: HostRuntime) -> Result<(), Fail> {
    for &(cells, values, trials, open) in LONG.iter() {
        let whole = (Verdict::Several, trials, open);
        let less = (Verdict::GaveUp { found: true }, open as u64, open);
        for (budget, told) in [
            (100_000, (whole, [true, true])),
            (trials, (whole, [true, true])),
            (open as u64, (less, [true, false])),
        ] {
            let row = (cells, values);
            let queue = long_searched(rt.alloc(), row, ByQueue, budget)?;
            assert_eq!(rt; queue, Some(told), "{cells} cells with {budget}");
            let sweeps = long_searched(rt.alloc(), row, BySweeps, budget)?;
            assert_eq!(rt; sweeps, Some(told), "{cells} cells with {budget}");
        }
    }
    Ok(())
}

/// The verdict on the listed rules with a budget, the trials, and the most that are open at once.
fn listed_searched(alloc: Global, budget: u64) -> Result<Walked, AllocError> {
    let rules = HouseRules::<Listed>::new(alloc, &())?;
    let mut store = Store::new(alloc, &rules)?;
    let verdict = store.solve(&rules, budget);
    Ok((verdict, store.trials(), store.deepest()))
}

/// The eight grids are tried in turn, by 2, 4 and 8 trials of the three cells. 010 is the third, and 101 the sixth, at which 11
/// trials were made.
static TURNS: [(u64, Walked); 4] = [
    (11, (Verdict::Several, 11, 3)),
    (10, (Verdict::GaveUp { found: true }, 10, 3)),
    (6, (Verdict::GaveUp { found: true }, 6, 3)),
    (5, (Verdict::GaveUp { found: false }, 5, 3)),
];

#[test]
fn listed_rules_are_tested_grid_by_grid(rt: HostRuntime) -> Result<(), Fail> {
    let rules = HouseRules::<Listed>::new(rt.alloc(), &())?;
    let told = closed(rt.alloc(), &rules)?;
    assert_eq!(rt; told, (Closing::Open, 2, 0, false));
    for &(budget, walked) in TURNS.iter() {
        assert_eq!(rt; listed_searched(rt.alloc(), budget)?, walked, "{budget}");
    }
    Ok(())
}
