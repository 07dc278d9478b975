//! Houses, and which of them have a place.
#![tactic(auto, using(crate::proofs::LawSets::house_index_laws))]

ghost use Rattle.std.specs.Prelude.{◌*◌, ◌+◌, ◌/◌, ◌<◌, ◌^◌, ◌||◌, ◌≡◌, ◌≤◌, IfOk, ℕ, length, slice_index};
ghost use Rattle.std.specs.List.{between};
ghost use Rattle.engine_core.specs.Common.{has_place, words_of, IsNext};
ghost use Rattle.engine_core.specs.HouseList.{AreMarked, AreMarkedToo, AreScopes, HasWordsAt, scope_of, AreMarksAt, HasMarked};

use crate::houses::list::FrozenList;
use crate::waits::next_waiting;
use grid_core::Fixed;
use std::alloc::{AllocError, Global};
use std::marker::Model;

/// Marks the house at each of these places: each place has so many words.
fn mark_house(marks: &mut [u64], words: usize, house: usize, places: &[u32])
    requires house_in { house / 64 < words }
    requires within { HasWordsAt words places.now marks.old }
    ensures as_many { length marks.new ≡ length marks.old }
    ensures marked { HasMarked words house places.now marks.old marks.new }
{
    for k in 0..places.len() {
        let word = places[k] as usize * words + house / 64;
        marks[word] |= 1 << (house % 64);
    }
}

/// Marks each house that is marked in the words of the place: each place has so many.
pub(crate) fn join_place(waits: &mut [u64], marks: &[u64], words: usize, place: usize)
    requires marks { place * words + words ≤ length marks.now }
    requires waits { words ≤ length waits.old }
    ensures { AreMarkedToo (between (place * words) (place * words + words) marks.now)
        waits.old waits.new }
{
    if words == 1 {
        waits[0] |= marks[place];
    } else {
        let from = place * words;
        join_marks(waits, &marks[from..from + words]);
    }
}

/// Marks each house that is marked in the second words.
#[inline(never)] // so that the loop doesn't burden the callers, which have one word mostly
fn join_marks(waits: &mut [u64], marks: &[u64])
    requires { length marks.now ≤ length waits.old }
    ensures { AreMarkedToo marks.now waits.old waits.new }
{
    for word in 0..marks.len() {
        waits[word] |= marks[word];
    }
}

/// The houses of a board of `cells` cells, and for each place which houses have it: a bit for each, in words of 64. The
/// words stand in one list, place by place.
#[derive(Drop)]
pub(crate) struct HouseTable {
    cells: usize,
    pub(crate) list: FrozenList,
    marks: Fixed<u64>,
}

impl Model for HouseTable {
    ghost use Rattle.std.specs.Prelude.{length};
    ghost use Rattle.engine_core.specs.HouseList.{Table, AreMarked};

    ghost Value = { Table };

    ghost view = { λ t. record { cells = t.cells; scopes = t.list.closed } };

    ghost invariant = { λ t. AreMarked t.cells t.list.closed (length t.list.closed) t.marks.items };
}

impl HouseTable {
    /// The table of the lists.
    ///
    /// # Errors
    ///
    /// When memory was refused.
    pub(crate) fn of(
        alloc: Global,
        cells: usize,
        list: FrozenList,
    ) -> Result<HouseTable, AllocError>
        requires cells { cells < 2 ^ 32 }
        requires scopes { AreScopes cells list.closed }
        ensures { IfOk result (λ table. table ≡ record { cells = cells; scopes = list.closed }) }
    {
        let words = list.len() / 64 + 1;
        let mut marks = Fixed::copies(alloc, 0u64, cells * words)?;
        let all: &mut [u64] = &mut marks;
        for house in 0..list.len() {
            mark_house(all, words, house, list.places(house));
        }
        Ok(HouseTable { cells, list, marks })
    }

    /// How many cells the board has.
    pub(crate) fn cells(&self) -> usize
        ensures { result ≡ self.now.cells }
    {
        self.cells
    }

    /// The marks of all places, one after another, and how many words a place has.
    pub(crate) fn marks(&self) -> (&[u64], usize)
        ensures marks { AreMarked self.now.cells self.now.scopes (length self.now.scopes)
            result.0.now }
        ensures words { result.1 ≡ words_of (length self.now.scopes) }
    {
        (&self.marks, self.list.len() / 64 + 1)
    }

    /// The marks of the houses that have the place.
    pub(crate) fn marks_at(&self, place: usize) -> &[u64]
        requires { place < self.now.cells }
        ensures { AreMarksAt self.now.scopes place result.now }
    {
        let words = self.list.len() / 64 + 1;
        let marks: &[u64] = &self.marks;
        let from = place * words;
        &marks[from..from + words]
    }

    /// The least house at or after `from` that has the place.
    pub(crate) fn next_at(&self, place: usize, from: usize) -> Option<usize>
        requires { place < self.now.cells }
        ensures { IsNext (λ h. has_place (scope_of self.now.scopes h) place)
            (length self.now.scopes) from result }
    {
        next_waiting(self.marks_at(place), from, self.list.len())
    }
}
