//! The houses of a puzzle, and their places.
#![tactic(auto, using(crate::proofs::HouseLemmas::house_laws))]

ghost use Rattle.std.specs.Prelude.{◌≡◌, ◌<◌, ◌≤◌, length, slice_index, slice_index_or};
ghost use Rattle.solo_core.specs.Common.{IsSolo, solo_n, NamedHouse, solo_cells, houses_of, IsSoloHouse, lies_in_house, places_of};

use crate::houses::house::NamedHouse;
use gameid_core::SoloPuzzle;
use grid_core::{block_place, diagonal_place};

/// How many cells the grid has.
pub(crate) fn cells(puzzle: &SoloPuzzle) -> usize
    ensures value { result ≡ solo_cells puzzle.now }
    ensures lawful { IsSolo puzzle.now }
{
    let n = usize::from(puzzle.n());
    n * n
}

/// How many houses there are.
pub(crate) fn houses(puzzle: &SoloPuzzle) -> usize
    ensures value { result ≡ length (houses_of puzzle.now) }
    ensures few { result ≤ 95 }
    ensures lawful { IsSolo puzzle.now }
{
    let n = usize::from(puzzle.n());
    if puzzle.x() { 3 * n + 2 } else { 3 * n }
}

/// The house with the number.
pub(crate) fn house(puzzle: &SoloPuzzle, number: usize) -> NamedHouse
    requires { number < length (houses_of puzzle.now) }
    ensures house_of { IsSoloHouse puzzle.now result }
    ensures at { (other : NamedHouse)
        → result ≡ slice_index_or (houses_of puzzle.now) number other }
{
    let n = usize::from(puzzle.n());
    if number < n {
        return NamedHouse::Row(number);
    }
    if number < 2 * n {
        return NamedHouse::Column(number - n);
    }
    if number < 3 * n {
        return NamedHouse::Block(number - 2 * n);
    }
    NamedHouse::Diagonal(number - 3 * n)
}

/// The place of the house's `k`-th cell.
pub(crate) fn place(puzzle: &SoloPuzzle, house: NamedHouse, k: usize) -> usize
    requires house_of { IsSoloHouse puzzle.now house }
    requires k_in { k < solo_n puzzle.now }
    ensures place { result ≡ slice_index (places_of puzzle.now house) k }
    ensures within { result < solo_cells puzzle.now }
{
    let n = usize::from(puzzle.n());
    match house {
        NamedHouse::Row(y) => y * n + k,
        NamedHouse::Column(i) => k * n + i,
        NamedHouse::Block(b) => block_place(puzzle.c(), puzzle.r(), b, k),
        NamedHouse::Diagonal(d) => diagonal_place(puzzle.n(), d, k),
    }
}

/// Whether the place lies in the house.
pub(crate) fn lies(puzzle: &SoloPuzzle, house: NamedHouse, place: usize) -> bool
    requires { place < solo_cells puzzle.now }
    ensures { result ≡ lies_in_house puzzle.now house place }
{
    let n = usize::from(puzzle.n());
    let c = usize::from(puzzle.c());
    let r = usize::from(puzzle.r());
    match house {
        NamedHouse::Row(y) => place / n == y,
        NamedHouse::Column(i) => place % n == i,
        NamedHouse::Block(b) => place / n / c * c + place % n / r == b,
        NamedHouse::Diagonal(0) => place % n == place / n,
        NamedHouse::Diagonal(_) => place % n == n - 1 - place / n,
    }
}
