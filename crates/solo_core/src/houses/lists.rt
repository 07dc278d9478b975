//! The places of the houses, as lists.
#![tactic(auto, using(crate::proofs::LawSets::lists_laws))]

ghost use Rattle.std.specs.Prelude.{◌≡◌, ◌*◌, ◌+◌, ◌<◌, ◌≤◌, [], IfOk, OnOk, length};
ghost use Rattle.engine_core.specs.HouseList.{FitsPlaces};
ghost use Rattle.grid_core.specs.Candidates.{max_values};
ghost use Rattle.solo_core.specs.Common.{IsSolo, IsSoloHouse, house_places, places_of, solo_cells, solo_n};
ghost use Rattle.solo_core.specs.Work.{HasBegun, HasHouses, closed_lists};

use crate::houses::house::NamedHouse;
use crate::houses::places::{houses, place};
use engine_core::HouseList;
use gameid_core::SoloPuzzle;
use std::alloc::{AllocError, Global};

/// Adds the places of a house to the begun list.
pub(crate) fn push_house(
    list: &mut HouseList,
    puzzle: &SoloPuzzle,
    house: NamedHouse,
) -> Result<(), AllocError>
    requires house_of { IsSoloHouse puzzle.now house }
    requires fits { FitsPlaces list.old max_values }
    ensures lawful { IsSolo puzzle.now }
    ensures begun { OnOk result (HasBegun (places_of puzzle.now house) list.old list.new) }
{
    for k in 0..usize::from(puzzle.n()) {
        list.push(place(puzzle, house, k))?;
    }
    Ok(())
}

/// Writes the places of the rows, after them those of the columns, and after them those of the blocks.
fn write_houses(all: &mut [u32], puzzle: &SoloPuzzle)
    requires { length all.old ≡ 3 * solo_n puzzle.now * solo_n puzzle.now }
    ensures long { length all.new ≡ length all.old }
    ensures houses { HasHouses puzzle.now (solo_cells puzzle.now) all.new }
{
    let n = usize::from(puzzle.n());
    let c = usize::from(puzzle.c());
    let r = usize::from(puzzle.r());
    let mut first_block = [0u32; 31];
    for cell in 0..puzzle.n() {
        let (y, x) = (cell / puzzle.r(), cell % puzzle.r());
        first_block[usize::from(cell)] = u32::from(y) * u32::from(puzzle.n()) + u32::from(x);
    }
    for place in 0..n * n {
        all[place] = place as u32;
    }
    for h in 0..n {
        let corner = h / c * c * n + h % c * r;
        for k in 0..n {
            let at = n * n + h * n + k;
            all[at] = (k * n + h) as u32;
            all[n * n + at] = corner as u32 + first_block[k];
        }
    }
}

/// The places of each house: rows, columns, blocks, and in Solo X both diagonals. There is room for so many lists more of
/// `2 * n` places each.
pub(crate) fn list_houses(
    alloc: Global,
    puzzle: &SoloPuzzle,
    more: usize,
) -> Result<HouseList, AllocError>
    requires { more ≤ 16000 }
    ensures known { IsSolo puzzle.now }
    ensures listed { IfOk result (λ list. list ≡ closed_lists (house_places puzzle.now)) }
{
    let n = usize::from(puzzle.n());
    let count = houses(puzzle);
    let mut places = Vec::with_capacity(alloc, (count + 2 * more) * n)?;
    places.resize(3 * n * n, 0u32)?;
    write_houses(&mut places, puzzle);
    let mut list = HouseList::cut(alloc, places, n, 3 * n, count + more)?;
    if !puzzle.x() {
        return Ok(list);
    }
    push_house(&mut list, puzzle, NamedHouse::Diagonal(0))?;
    list.end()?;
    push_house(&mut list, puzzle, NamedHouse::Diagonal(1))?;
    list.end()?;
    Ok(list)
}
