//! What the numbers of a rule set's houses name.
#![tactic(auto, using(crate::proofs::LawSets::numbers_laws))]

ghost use Rattle.std.specs.Prelude.{◌≡◌, ◌<◌, length, slice_index_or};
ghost use Rattle.solo_core.specs.Common.{solo_n, IsSoloHouse};
ghost use Rattle.solo_core.specs.declared.houses.visit.VisitName.{VisitName};
ghost use Rattle.solo_core.specs.Scopes.{scopes_of, crossing_scopes, IsCrossingAt};

use crate::houses::house::NamedHouse;
use crate::houses::places::{house, houses};
use crate::houses::visit::VisitName;
use gameid_core::SoloPuzzle;

/// What `SoloCrossings` visits under the number: the rows from the top, the columns from the left, the blocks, in Solo X
/// both diagonals; then each block with each row that it meets, and each block with each column that it meets, in order.
/// `SoloSingles` and `SoloHouses` visit the houses under the same numbers, and no crossings.
pub fn visit_name(puzzle: &SoloPuzzle, number: usize) -> VisitName
    requires { number < length (scopes_of puzzle.now) }
    ensures { (other : VisitName) → result ≡ slice_index_or (scopes_of puzzle.now) number other }
{
    let count = houses(puzzle);
    if number < count {
        return VisitName::House(house(puzzle, number));
    }
    let (block, line) = crossing_at(puzzle, number - count);
    VisitName::Crossing { block, line }
}

/// The block and the line of the crossing with the number.
pub(crate) fn crossing_at(puzzle: &SoloPuzzle, number: usize) -> (usize, NamedHouse)
    requires { number < length (crossing_scopes puzzle.now) }
    ensures scope { IsCrossingAt puzzle.now number result.0 result.1 }
    ensures block_in { result.0 < solo_n puzzle.now }
    ensures line_of { IsSoloHouse puzzle.now result.1 }
{
    let c = usize::from(puzzle.c());
    let r = usize::from(puzzle.r());
    let rows = usize::from(puzzle.n()) * c;
    if number < rows {
        let block = number / c;
        return (block, NamedHouse::Row(block / c * c + number % c));
    }
    let m = number - rows;
    let block = m / r;
    (block, NamedHouse::Column(block % c * r + m % r))
}
