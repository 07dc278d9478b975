//! What is kept of a line's cells, as words.

ghost use Rattle.std.specs.Prelude.{◌&&◌, ◌<◌, ◌≡◌, ◌≤◌, false, length, ℕ};
ghost use Rattle.grid_core.specs.Extent.{max_side};
ghost use Rattle.pattern_core.specs.Below.{has_bit};
ghost use Rattle.pattern_core.specs.LineRules.{numbers_in};
ghost use Rattle.pattern_core.specs.Lines.{IsDecidedBy};
ghost use Rattle.pattern_core.specs.LinePlanes.{AreCellsDecided, AreCellsShown, AreSmall, IsWithIf, set_at, sets_in};
ghost use Rattle.pattern_core.specs.Track.{AreRowsAlong, IsBelow, along, slots_of};

use crate::line_clue::{LineClue, Rows};
use crate::slots::Slots;
use crate::table::{ahead_of, ways_of};
use crate::track::{SpelledClue, TrackSlots};
use grid_core::Word;

/// The places with that one too, where `on`.
fn with_if<W: Word>(places: W, place: usize, on: bool) -> W
    requires { place < W.room }
    ensures { IsWithIf W.bits places place on result }
{
    if on {
        places.either(W::one(place))
    } else {
        places
    }
}

/// The cells of a line that can be white, and those that can be black.
#[derive(Clone, Copy)]
pub(crate) struct Cells<W> {
    pub(crate) white: W,
    pub(crate) black: W,
}

impl<W: Word> Cells<W> {
    /// The cells with these sets.
    fn of(sets: &[u32]) -> Cells<W>
        requires room { length sets.now ≤ W.room }
        requires small { AreSmall sets.now }
        ensures { sets_in W.bits result (length sets.now) ≡ sets.now }
    {
        let mut cells = Cells {
            white: W::none(),
            black: W::none(),
        };
        for k in 0..sets.len() {
            cells.white = with_if(cells.white, k, sets[k] % 2 == 1);
            cells.black = with_if(cells.black, k, sets[k] > 1);
        }
        cells
    }

    /// Writes the sets of the cells.
    fn write(self, sets: &mut [u32])
        requires { length sets.old ≤ W.room }
        ensures { sets.new ≡ sets_in W.bits self (length sets.old) }
    {
        for k in 0..sets.len() {
            sets[k] = self.set(k);
        }
    }

    /// The set of a cell.
    fn set(self, k: usize) -> u32
        requires { k < W.room }
        ensures { result ≡ set_at (W.bits self.white) (W.bits self.black) k }
    {
        u32::from(self.white.has(k)) + 2 * u32::from(self.black.has(k))
    }

    /// Fills the table for so many cells, from the last one backwards. Nothing asks for the first row.
    fn fill_rows<P: Slots>(self, count: usize, steps: TrackSlots<P>, rows: &mut [P])
        requires room { count < length rows.old }
        requires fits { count ≤ W.room }
        ensures { AreRowsAlong P.bits steps (sets_in W.bits self count) rows.new }
    {
        let mut at = count;
        rows[at] = steps.ends;
        while at > 1 {
            at -= 1;
            rows[at] = ahead_of(steps, self.white.has(at), self.black.has(at), rows[at + 1]);
        }
    }

    /// Keeps of so many cells what a way from the first slot to the end shows there. It asks of no cell what it has, since
    /// that can't be foreseen.
    fn keep<P: Slots>(self, count: usize, steps: TrackSlots<P>, rows: &[P]) -> Cells<W>
        requires room { count < length rows.now }
        requires fits { count ≤ W.room }
        requires rows { AreRowsAlong P.bits steps (sets_in W.bits self count) rows.now }
        requires below { IsBelow P.room (along (slots_of P.bits) steps) }
        ensures { AreCellsShown W.bits (along (slots_of P.bits) steps) count self result }
    {
        let (mut white, mut black) = (W::none(), W::none());
        let mut reached = P::first();
        for at in 0..count {
            let ways = ways_of(steps, reached);
            let after = rows[at + 1];
            white = with_if(white, at, ways.white.both(after).is_some());
            black = with_if(black, at, ways.black.both(after).is_some());
            reached = ways.by_cell(self.white.has(at), self.black.has(at));
        }
        Cells {
            white: white.both(self.white),
            black: black.both(self.black),
        }
    }

    /// The same where no cell may be both: all of them stay or none, so one way along the clue is enough.
    fn keep_settled<P: Slots>(self, count: usize, steps: TrackSlots<P>) -> Cells<W>
        requires fits { count ≤ W.room }
        requires settled { (k : ℕ) → k < count
            → (has_bit (W.bits self.white) k && has_bit (W.bits self.black) k) ≡ false }
        requires below { IsBelow P.room (along (slots_of P.bits) steps) }
        ensures { AreCellsShown W.bits (along (slots_of P.bits) steps) count self result }
    {
        let mut reached = P::first();
        for at in 0..count {
            reached = ways_of(steps, reached).by_cell(self.white.has(at), self.black.has(at));
        }
        if reached.both(steps.ends).is_some() {
            return self;
        }
        Cells {
            white: W::none(),
            black: W::none(),
        }
    }

    /// Keeps of a line of so many cells the values that some filling with the clue's runs has, by the table.
    fn filter_by<P: Slots>(self, count: usize, clue: &SpelledClue<P>, rows: &mut [P]) -> Cells<W>
        requires room { count < length rows.old }
        requires fits { count ≤ W.room }
        ensures { AreCellsDecided W.bits clue.now count self result }
    {
        let steps = clue.steps();
        if !self.white.both(self.black).is_some() {
            return self.keep_settled(count, steps);
        }
        self.fill_rows(count, steps, rows);
        self.keep(count, steps, rows)
    }

    /// The same for a clue spelled in words of either length.
    pub(crate) fn filter(self, count: usize, clue: &LineClue, rows: &mut Rows) -> Cells<W>
        requires few { count ≤ max_side }
        requires fits { count ≤ W.room }
        ensures { AreCellsDecided W.bits (numbers_in clue.now) count self result }
    {
        match clue {
            LineClue::Short(clue) => self.filter_by(count, clue, &mut rows.short),
            LineClue::Long(clue) => self.filter_by(count, clue, &mut rows.long),
        }
    }
}

/// Keeps of each cell of a line the values that some filling of the line with the clue's runs has there. It takes no memory:
/// the table is written into `rows`. Its steps are at most four for each cell of the line, of a few word operations each.
pub(crate) fn filter_sets(sets: &mut [u32], clue: &LineClue, rows: &mut Rows)
    requires few { length sets.old ≤ max_side }
    requires small { AreSmall sets.old }
    ensures { IsDecidedBy (numbers_in clue.now) sets.old sets.new }
{
    let cells: Cells<u128> = Cells::of(sets);
    cells.filter(sets.len(), clue, rows).write(sets);
}
