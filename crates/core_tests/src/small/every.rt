//! Every puzzle that a list of pieces spells: all its grids are counted beside the verdict, and it goes as by plain programs.

use super::trials;
use gameid_core::Game;
use std::alloc::{AllocError, Global};
use std::test::Fail;

/// The front of IDs, the pieces that may stand at each of so many places after it, and the end.
type Spelled = (
    Game,
    &'static str,
    &'static [&'static str],
    usize,
    &'static str,
);

/// What follows the first two cells of a grid of Solo. Two open cells can be exchanged with those.
const EXCHANGED: &str = "3_4_3_4_1_2_aa4_3_4_3_2_1";

/// The rows of a grid of Solo X that follow its first row.
const CROSSED: &str = "3_4_1_2_4_3_2_1_2_1_4_3";

static SPELLED: [Spelled; 9] = [
    (Game::Solo, "2x2:", &["a", "1_", "2_"], 2, EXCHANGED),
    (Game::Solo, "2x2x:1_", &["a", "2_", "3_", "4_"], 3, CROSSED),
    (Game::Pattern, "2x2:1", &["/", "/1", "/2"], 3, ""),
    (Game::Pattern, "4x1:1", &["/", "/1"], 3, "/1.1"),
    (
        Game::LightUp,
        "2x2:",
        &["a", "B", "0", "1", "2", "3", "4"],
        4,
        "",
    ),
    (Game::LightUp, "3x2:", &["a", "B", "1"], 6, ""),
    (Game::Tents, "2x2:_c", &[",0", ",1", ",2"], 4, ""),
    (Game::Tents, "3x2:a_c", &[",0", ",1"], 5, ""),
    (Game::Tents, "4x3:dbd", &[",0", ",1"], 4, ",1,0,1"),
];

/// The ID with this number among those, if there are so many: its digits name the pieces.
fn spelled(alloc: Global, line: Spelled, number: usize) -> Result<Option<String>, AllocError> {
    let (_, front, pieces, places, end) = line;
    let mut id = String::from_str(alloc, front)?;
    let (mut rest, count) = (number, pieces.len().max(1));
    for _place in 0..places {
        if let Some(piece) = pieces.get(rest % count) {
            id.push_str(piece)?;
        }
        rest /= count;
    }
    id.push_str(end)?;
    Ok((rest == 0).then_some(id))
}

#[test]
fn every_puzzle_that_is_spelled(rt: HostRuntime) -> Result<(), Fail> {
    for &line in SPELLED.iter() {
        for number in 0..10_000 {
            let Some(id) = spelled(rt.alloc(), line, number)? else {
                break;
            };
            assert!(rt; trials(rt.alloc(), line.0, &id)?.is_some(), "{id}");
        }
    }
    Ok(())
}
