//! A cell leaves all its houses with its value, and comes back.
#![tactic(auto)]

ghost use Rattle.std.specs.Prelude.{◌≡◌, length};
ghost use Rattle.solo_core.specs.OpenBoards.{AreOpenSpots, AreSpotsIn, StayOpenWith};

use crate::visits::open::OpenHouse;
use crate::visits::spots::Spot;

/// Takes the cell, which has that set's one value, and the value out of each of its houses where the value is open.
pub(crate) fn close_cell(houses: &mut [OpenHouse], spots: &[Spot], set: u32)
    requires { AreSpotsIn houses.old spots.now }
    ensures as_many { length houses.new ≡ length houses.old }
    ensures stay { StayOpenWith spots.now set houses.old houses.new }
{
    for i in 0..spots.len() {
        let (house, cell) = (usize::from(spots[i].house), usize::from(spots[i].cell));
        houses[house] = houses[house].close(cell, set);
    }
}

/// Puts the cell, which has that set's one value, and the value back into each of its houses where the cell isn't open.
pub(crate) fn reopen_cell(houses: &mut [OpenHouse], spots: &[Spot], set: u32)
    requires { AreSpotsIn houses.old spots.now }
    ensures as_many { length houses.new ≡ length houses.old }
    ensures stay { StayOpenWith spots.now set houses.old houses.new }
    ensures here { AreOpenSpots houses.new spots.now (length spots.now) }
{
    for i in 0..spots.len() {
        let (house, cell) = (usize::from(spots[i].house), usize::from(spots[i].cell));
        houses[house] = houses[house].reopen(cell, set);
    }
}
