//! Houses as lists of places, one after another.
#![tactic(auto, using(crate::proofs::LawSets::house_list_laws))]

ghost use Rattle.std.specs.Prelude.{◌++◌, ◌<◌, ◌^◌, ◌∷◌, ◌≡◌, IfOk, OnOk, [], length, slice_index, slice_index_or, sum_by, vec_len, ◌*◌};
ghost use Rattle.engine_core.specs.Common.{last_end};
ghost use Rattle.engine_core.specs.HouseList.{FitsPlaces, FitsLists, cut_evenly, with_end, with_place};

use grid_core::Fixed;
use std::alloc::{AllocError, Global};
use std::marker::Model;

/// Lists of places: those that are closed, and the begun one. All their places stand in one list, in four bytes each.
/// Where each closed list ends in it stands in another. Fewer than 2^20 lists are closed, and each list has fewer than
/// 2^12 places, so all have fewer than 2^32 together.
#[derive(Drop)]
pub struct HouseList {
    places: Vec<u32>,
    ends: Vec<usize>,
}

impl Model for HouseList {
    ghost use Rattle.engine_core.specs.HouseList.{Listed, listed, IsListed};

    ghost Value = { Listed };

    ghost view = { λ l. listed l.places.items l.ends.items };

    ghost invariant = { λ l. IsListed l.places.items l.ends.items };
}

impl HouseList {
    /// No list, with room for so many lists of so many places together. More can be added: they take more memory.
    ///
    /// # Errors
    ///
    /// When memory was refused.
    pub fn new(alloc: Global, houses: usize, places: usize) -> Result<HouseList, AllocError>
        ensures { IfOk result (λ list. list ≡ record { closed = []; begun = [] }) }
    {
        Ok(HouseList {
            places: Vec::with_capacity(alloc, places)?,
            ends: Vec::with_capacity(alloc, houses)?,
        })
    }

    /// The lists of these places, one after another, and `long` in each. There is room for `room` lists.
    ///
    /// # Errors
    ///
    /// When memory was refused.
    pub fn cut(
        alloc: Global,
        places: Vec<u32>,
        long: usize,
        lists: usize,
        room: usize,
    ) -> Result<HouseList, AllocError>
        requires few { lists < 2 ^ 20 }
        requires short { long < 2 ^ 12 }
        requires whole { vec_len places ≡ lists * long }
        ensures { IfOk result (λ list. list
            ≡ record { closed = cut_evenly long places.items lists; begun = [] }) }
    {
        let mut ends = Vec::with_capacity(alloc, room)?;
        for list in 0..lists {
            ends.push((list + 1) * long)?;
        }
        Ok(HouseList { places, ends })
    }

    /// Adds a place to the begun list.
    ///
    /// # Errors
    ///
    /// When memory was refused.
    pub fn push(&mut self, place: usize) -> Result<(), AllocError>
        requires place { place < 2 ^ 32 }
        requires fits { FitsPlaces self.old 1 }
        ensures { OnOk result (self.new ≡ with_place self.old place) }
    {
        self.places.push(place as u32)?;
        Ok(())
    }

    /// Closes the begun list, and begins the next.
    ///
    /// # Errors
    ///
    /// When memory was refused.
    pub fn end(&mut self) -> Result<(), AllocError>
        requires { FitsLists self.old 1 }
        ensures { OnOk result (self.new ≡ with_end self.old) }
    {
        let places: &[u32] = &self.places;
        self.ends.push(places.len())?;
        Ok(())
    }

    /// The closed lists, to which nothing is added any more. The begun one goes.
    pub fn freeze(self) -> FrozenList
        ensures { result ≡ self }
    {
        FrozenList {
            places: Fixed::of(self.places),
            ends: Fixed::of(self.ends),
        }
    }
}

/// The lists of a `HouseList`, when no more are added. They lend their places, and nothing else: no call takes memory.
#[derive(Drop)]
pub struct FrozenList {
    places: Fixed<u32>,
    ends: Fixed<usize>,
}

impl Model for FrozenList {
    ghost use Rattle.engine_core.specs.HouseList.{Listed, listed, IsListed};

    ghost Value = { Listed };

    ghost view = { λ l. listed l.places.items l.ends.items };

    ghost invariant = { λ l. IsListed l.places.items l.ends.items };
}

impl FrozenList {
    /// How many lists there are.
    pub fn len(&self) -> usize
        ensures len { result ≡ length self.now.closed }
        ensures few { result < 2 ^ 32 }
    {
        let ends: &[usize] = &self.ends;
        ends.len()
    }

    /// How many places all lists have together.
    pub fn total(&self) -> usize
        ensures total { result ≡ sum_by length self.now.closed }
        ensures few { result < 2 ^ 32 }
    {
        last(&self.ends)
    }

    /// The places of a list.
    pub fn places(&self, house: usize) -> &[u32]
        requires { house < length self.now.closed }
        ensures { result.now ≡ slice_index_or self.now.closed house [] }
    {
        let (places, ends): (&[u32], &[usize]) = (&self.places, &self.ends);
        &places[begin(ends, house)..ends[house]]
    }
}

/// Where a list begins: where the one before ends.
fn begin(ends: &[usize], house: usize) -> usize
    requires { house < length ends.now }
    ensures { result ≡ slice_index (0 ∷ ends.now) house }
{
    if house == 0 { 0 } else { ends[house - 1] }
}

/// Where the last list ends.
fn last(ends: &[usize]) -> usize
    ensures { result ≡ last_end 0 ends.now }
{
    let count = ends.len();
    if count == 0 { 0 } else { ends[count - 1] }
}
