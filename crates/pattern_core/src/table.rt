//! The values that some filling of a line with its clue's runs shows, by a table over the line's cells and the slots
//! along its clue.
//!
//! A line goes along the cells of its spelled clue (see `track`). A row of the table has one bit for each slot along the
//! clue, and is read and written as one word: it says from which of them the line can still come to the end of the clue.
//! The rows are filled from the last cell backwards; then one word, the slots that can be reached, goes forwards, and a
//! value of a cell stays where the two meet.

ghost use Rattle.std.specs.Prelude.{◌≡◌, ℕ, ◌&&◌, ◌||◌};
ghost use Rattle.pattern_core.specs.Track.{AreAhead, AreLed, set_with, slots_of};

use crate::slots::Slots;
use crate::track::TrackSlots;

/// These slots where `on`, and else none.
fn slots_if<P: Slots>(slots: P, on: bool) -> P
    ensures { (p : ℕ) → slots_of P.bits result p ≡ (on && slots_of P.bits slots p) }
{
    if on { slots } else { P::none() }
}

/// Slots by the value of a cell: for a white one, and for a black one.
#[derive(Clone, Copy)]
pub(crate) struct Ways<P> {
    pub(crate) white: P,
    pub(crate) black: P,
}

impl<P: Slots> Ways<P> {
    /// The slots for a cell that may be white, or black, as is told.
    pub(crate) fn by_cell(self, white: bool, black: bool) -> P
        ensures { (p : ℕ) → slots_of P.bits result p
            ≡ ((white && slots_of P.bits self.white p) || (black && slots_of P.bits self.black p)) }
    {
        slots_if(self.white, white).either(slots_if(self.black, black))
    }
}

/// From which slots there is a way to the end by a cell that may be white, or black, by those from which there is one after it.
pub(crate) fn ahead_of<P: Slots>(steps: TrackSlots<P>, white: bool, black: bool, after: P) -> P
    ensures { AreAhead (slots_of P.bits) steps (set_with white black) after result }
{
    let next = after.back();
    let ways = Ways {
        white: steps.stay.both(after).either(steps.white.both(next)),
        black: steps.black.both(next),
    };
    ways.by_cell(white, black)
}

/// Where a cell leads from the slots that are reached before it.
pub(crate) fn ways_of<P: Slots>(steps: TrackSlots<P>, reached: P) -> Ways<P>
    ensures white { AreLed P.room (slots_of P.bits) steps 1 reached result.white }
    ensures black { AreLed P.room (slots_of P.bits) steps 2 reached result.black }
{
    let next = steps.white.both(reached).on();
    Ways {
        white: steps.stay.both(reached).either(next),
        black: steps.black.both(reached).on(),
    }
}
