//! The names of count houses, by number.

ghost use Rattle.std.specs.Prelude.{◌<◌, ◌∷◌, ◌≡◌, IfOk, [], length};
ghost use Rattle.fields_core.specs.Common.{AreNamed, count_house_of};

use crate::count::game::CountGame;
use crate::count::name::HouseName;
use std::alloc::{AllocError, Global};

/// The names of all houses, which are so many: kind by kind, each by place or line.
pub(crate) fn names_of<P: CountGame>(
    alloc: Global,
    puzzle: &P,
    houses: usize,
) -> Result<Vec<HouseName<P::Kind>>, AllocError>
    ensures { IfOk result
        (λ names. AreNamed (P.told puzzle.now) names.items (P.counts puzzle.now).houses) }
{
    let mut names = Vec::with_capacity(alloc, houses)?;
    for number in 0..4 {
        let kind = P::kind(number);
        for place in 0..puzzle.span(kind) {
            if puzzle.tells(kind, place) {
                names.push(HouseName::of(kind, place))?;
            }
        }
    }
    Ok(names)
}

/// The name of the house of that number, which is looked for among all.
pub(crate) fn name_of<P: CountGame>(puzzle: &P, house: usize) -> HouseName<P::Kind>
    requires { house < length (P.counts puzzle.now).houses }
    ensures { P.told puzzle.now result.kind result.place
        ≡ count_house_of (P.counts puzzle.now).houses house ∷ [] }
{
    let mut left = house;
    for number in 0..4 {
        let kind = P::kind(number);
        for place in 0..puzzle.span(kind) {
            if puzzle.tells(kind, place) {
                if left == 0 {
                    return HouseName::of(kind, place);
                }
                left -= 1;
            }
        }
    }
    unreachable!()
}
