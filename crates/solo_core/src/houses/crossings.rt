//! The crossings of a puzzle: each block with each row and each column that it meets.
#![tactic(auto, using(crate::proofs::LawSets::crossings_laws))]

ghost use Rattle.std.specs.Prelude.{◌≡◌, ◌<◌, ◌≤◌, [], OnOk, length};
ghost use Rattle.engine_core.specs.HouseList.{FitsLists, FitsPlaces, all_places};
ghost use Rattle.solo_core.specs.Common.{solo_n, IsSoloHouse};
ghost use Rattle.solo_core.specs.RuleSets.{crossing_of, crossings_of, rest_of_line};
ghost use Rattle.solo_core.specs.Work.{HasAdded, HasBegun, HasClosed};

use crate::houses::house::NamedHouse;
use crate::houses::lists::push_house;
use crate::houses::numbers::crossing_at;
use crate::houses::places::{lies, place};
use engine_core::HouseList;
use gameid_core::SoloPuzzle;
use std::alloc::AllocError;

/// How many crossings there are.
pub(crate) fn crossings(puzzle: &SoloPuzzle) -> usize
    ensures count { result ≡ length (crossings_of puzzle.now) }
    ensures few { result ≤ 16000 }
{
    usize::from(puzzle.n()) * (usize::from(puzzle.c()) + usize::from(puzzle.r()))
}

/// Adds the line's places outside the block.
fn push_rest(
    list: &mut HouseList,
    puzzle: &SoloPuzzle,
    block: usize,
    line: NamedHouse,
) -> Result<(), AllocError>
    requires block_in { block < solo_n puzzle.now }
    requires line_of { IsSoloHouse puzzle.now line }
    requires fits { FitsPlaces list.old (solo_n puzzle.now) }
    ensures { OnOk result (HasBegun (rest_of_line puzzle.now block line) list.old list.new) }
{
    for k in 0..usize::from(puzzle.n()) {
        let other = place(puzzle, line, k);
        if lies(puzzle, NamedHouse::Block(block), other) {
            continue;
        }
        list.push(other)?;
    }
    Ok(())
}

/// Adds a crossing.
fn push_crossing(
    list: &mut HouseList,
    puzzle: &SoloPuzzle,
    block: usize,
    line: NamedHouse,
) -> Result<(), AllocError>
    requires block_in { block < solo_n puzzle.now }
    requires line_of { IsSoloHouse puzzle.now line }
    requires closed { list.old.begun ≡ [] }
    requires fits { FitsLists list.old 1 }
    ensures { OnOk result (HasClosed (crossing_of puzzle.now block line).places list.old list.new) }
{
    push_house(list, puzzle, NamedHouse::Block(block))?;
    push_rest(list, puzzle, block, line)?;
    list.end()?;
    Ok(())
}

/// Adds each crossing.
pub(crate) fn push_crossings(list: &mut HouseList, puzzle: &SoloPuzzle) -> Result<(), AllocError>
    requires closed { list.old.begun ≡ [] }
    requires fits { FitsLists list.old (length (crossings_of puzzle.now)) }
    ensures { OnOk result (HasAdded (all_places (crossings_of puzzle.now)) list.old list.new) }
{
    for number in 0..crossings(puzzle) {
        let (block, line) = crossing_at(puzzle, number);
        push_crossing(list, puzzle, block, line)?;
    }
    Ok(())
}
