//! Worked examples of closings of Solo.

use crate::rules::solo;
use engine_core::{Closing, Noted, Searchable, Store};
use gameid_core::SoloPuzzle;
use solo_core::{Crossings, Singles, SoloFillings};
use std::alloc::{AllocError, Global};
use std::test::Fail;

/// In the second row 3 and 4 stand first.
const PAIR: &str = "2x2:d3_4j";

/// The 1 of the first block has to stand in the top row.
const CLAIMED: &str = "3x3:q1_2_3_4zzh";

/// Which values a closing leaves the cell, as bits: none where it shows a contradiction.
fn left_by<R: Searchable>(alloc: Global, rules: &R, place: usize) -> Result<u32, AllocError> {
    let mut store = Store::new(alloc, rules)?;
    if place >= rules.cells() || store.close(rules) != Closing::Open {
        return Ok(0);
    }
    Ok(store.board().bits(place))
}

/// The same of the puzzle with the ID.
fn left<S: Noted<Puzzle = SoloPuzzle>>(alloc: Global, id: &str, place: usize) -> Result<u32, Fail> {
    let rules = solo::<S>(alloc, id)?;
    Ok(left_by(alloc, &rules, place)?)
}

#[test]
fn a_pair_is_taken_by_houses_and_not_by_singles(rt: HostRuntime) -> Result<(), Fail> {
    let first = left::<SoloFillings>(rt.alloc(), PAIR, 2)?;
    let second = left::<SoloFillings>(rt.alloc(), PAIR, 6)?;
    assert_eq!(rt; (first, second), (0b1100, 0b0011));
    assert_eq!(rt; left::<Singles>(rt.alloc(), PAIR, 2)?, 0b1111);
    Ok(())
}

#[test]
fn what_a_block_claims_is_struck_by_crossings_alone(rt: HostRuntime) -> Result<(), Fail> {
    for place in 3..6 {
        let fillings = left::<SoloFillings>(rt.alloc(), CLAIMED, place)?;
        let crossings = left::<Crossings>(rt.alloc(), CLAIMED, place)?;
        assert_eq!(rt; (fillings, crossings), (0b1_1111_1111, 0b1_1111_1110));
    }
    Ok(())
}
