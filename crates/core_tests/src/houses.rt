//! The numbers of houses: which have a cell, and what they name.

use crate::game_ids::long_text;
use crate::rules::{lights, pattern, solo, tents};
use engine_core::Rules;
use gameid_core::{Game, SoloPuzzle};
use solo_core::{Crossings, NamedHouse, VisitName, visit_name};
use std::alloc::{AllocError, Global};
use std::test::Fail;

/// How many houses there are, and then those that have the cell.
fn found<R: Rules>(alloc: Global, rules: &R, place: usize) -> Result<Vec<usize>, AllocError> {
    let mut list = Vec::new(alloc);
    list.push(rules.houses())?;
    let mut from = 0;
    for _house in 0..rules.houses() {
        if place >= rules.cells() {
            break;
        }
        let Some(house) = rules.house_at(place, from) else {
            break;
        };
        list.push(house)?;
        from = house.saturating_add(1);
    }
    Ok(list)
}

/// The same of the puzzle with the ID.
fn found_in(alloc: Global, game: Game, id: &str, place: usize) -> Result<Vec<usize>, Fail> {
    Ok(match game {
        Game::Solo => found(alloc, &solo::<Crossings>(alloc, id)?, place)?,
        Game::Pattern => found(alloc, &pattern(alloc, id)?, place)?,
        Game::LightUp => found(alloc, &lights(alloc, id)?, place)?,
        Game::Tents => found(alloc, &tents(alloc, id)?, place)?,
    })
}

/// A puzzle, a place, how many houses there are, and those that have it. Houses of one kind follow one another: rows, columns,
/// blocks, diagonals and crossings; columns and rows; numbers, runs of rows and of columns, and what cells see; columns, rows,
/// trees and squares.
static PLACES: [(Game, &str, usize, &[usize]); 9] = [
    (
        Game::Solo,
        "2x2:p",
        0,
        &[28, 0, 4, 8, 12, 13, 14, 20, 21, 24],
    ),
    (
        Game::Solo,
        "2x2x:p",
        3,
        &[30, 0, 7, 9, 13, 14, 16, 17, 24, 25, 29],
    ),
    (Game::Pattern, "2x1:1//1", 1, &[3, 1, 2]),
    (Game::LightUp, "2x2:2c", 0, &[8]),
    (Game::LightUp, "2x2:2c", 1, &[8, 0, 1, 3, 5, 7]),
    (Game::LightUp, "2x2:2c", 2, &[8, 0, 2, 4, 6, 7]),
    (Game::LightUp, "2x2:BBBB", 3, &[0]),
    (Game::Tents, "2x2:_c,0,1,1,0", 0, &[6, 0, 2, 5]),
    (Game::Tents, "2x2:_c,0,1,1,0", 1, &[6, 1, 2, 4, 5]),
];

#[test]
fn houses_of_a_cell_are_found(rt: HostRuntime) -> Result<(), Fail> {
    for &(game, id, place, houses) in PLACES.iter() {
        let list = found_in(rt.alloc(), game, id, place)?;
        assert_eq!(rt; list.as_slice(), houses, "{id} {place}");
    }
    let id = long_text(rt.alloc(), "120x2:zzzzzzzzzo", ",0", 122, "")?;
    let list = found_in(rt.alloc(), Game::Tents, str::from_utf8(&id)?, 0)?;
    assert_eq!(rt; list.as_slice(), [241, 0, 120, 122].as_slice());
    Ok(())
}

/// What a number names in Solo X of 2 by 3 blocks, if it names anything.
fn named(alloc: Global, number: usize) -> Result<Option<VisitName>, AllocError> {
    let puzzle = SoloPuzzle::blank(alloc, 2, 3, true)?;
    if number >= 50 {
        return Ok(None);
    }
    Ok(Some(visit_name(&puzzle, number)))
}

#[test]
fn numbers_name_houses_and_crossings(rt: HostRuntime) -> Result<(), Fail> {
    for (number, name) in [
        (5, VisitName::House(NamedHouse::Row(5))),
        (6, VisitName::House(NamedHouse::Column(0))),
        (17, VisitName::House(NamedHouse::Block(5))),
        (19, VisitName::House(NamedHouse::Diagonal(1))),
        (23, crossing(1, NamedHouse::Row(1))),
        (31, crossing(5, NamedHouse::Row(5))),
        (35, crossing(1, NamedHouse::Column(3))),
        (49, crossing(5, NamedHouse::Column(5))),
    ] {
        assert_eq!(rt; named(rt.alloc(), number)?, Some(name), "{number}");
    }
    Ok(())
}

/// The crossing of a block and a line.
fn crossing(block: usize, line: NamedHouse) -> VisitName {
    VisitName::Crossing { block, line }
}
