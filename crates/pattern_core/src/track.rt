//! A line's clue spelled out as cells: each run's black cells, and a white cell after it. A line goes along these cells: a
//! black cell or the white cell after a run takes it one place on, and before a run it may stay where it is for any
//! number of white cells.

ghost use Rattle.std.specs.Prelude.{◌≡◌, ℕ, ◌<◌, true, ◌++◌, [], ◌∷◌, replicate};
ghost use Rattle.gameid_core.specs.Puzzles.{used};
ghost use Rattle.pattern_core.specs.Lines.{IsRoomy, IsRoomyFrom, ArePositive};
ghost use Rattle.pattern_core.specs.Track.{spelled, slots_of, track_of, along, AddsCells, IsBelow};

use crate::slots::Slots;
use std::marker::Model;

/// How a line goes along a spelled clue: the slots at which it may have one more white cell and stay, go on by a white
/// cell, go on by a black one, and end.
#[derive(Clone, Copy)]
pub(crate) struct TrackSlots<P> {
    pub(crate) stay: P,
    pub(crate) white: P,
    pub(crate) black: P,
    pub(crate) ends: P,
}

/// What is spelled so far: its white slots, its black ones, and the slot after it.
#[derive(Clone, Copy)]
struct Spelling<P> {
    white: P,
    black: P,
    next: P,
}

/// Adds a black cell.
fn push_black<P: Slots>(spelling: Spelling<P>) -> Spelling<P>
    ensures { AddsCells (slots_of P.bits) P.room 0 (1 ∷ []) spelling result }
{
    Spelling {
        white: spelling.white,
        black: spelling.black.either(spelling.next),
        next: spelling.next.on(),
    }
}

/// Adds a white cell.
fn push_white<P: Slots>(spelling: Spelling<P>) -> Spelling<P>
    ensures { AddsCells (slots_of P.bits) P.room 0 (0 ∷ []) spelling result }
{
    Spelling {
        white: spelling.white.either(spelling.next),
        black: spelling.black,
        next: spelling.next.on(),
    }
}

/// Adds the black cells of a run and the white cell after it.
fn push_run<P: Slots>(spelling: Spelling<P>, number: u8) -> Spelling<P>
    ensures { AddsCells (slots_of P.bits) P.room number (replicate number 1 ++ 0 ∷ [])
        spelling result }
{
    let mut longer = spelling;
    for _k in 0..number {
        longer = push_black(longer);
    }
    push_white(longer)
}

/// Spells a clue.
fn spell<P: Slots>(clue: &[u8]) -> TrackSlots<P>
    requires { used clue.now < P.room }
    ensures { along (slots_of P.bits) result ≡ track_of (spelled clue.now) }
{
    let mut cells = Spelling {
        white: P::none(),
        black: P::none(),
        next: P::first(),
    };
    for k in 0..clue.len() {
        cells = push_run(cells, clue[k]);
    }
    TrackSlots {
        stay: cells.white.on().either(P::first()),
        white: cells.white,
        black: cells.black,
        ends: cells.next.either(cells.next.back()),
    }
}

/// More cells than a line has.
pub(crate) const TOO_MANY: usize = 1000;

/// How many cells a clue is spelled with, those of each run and a white one after it; and from how many cells on a line
/// is roomy for it.
pub(crate) fn measured(numbers: &[u8]) -> (usize, usize)
    requires positive { ArePositive numbers.now }
    requires fits { used numbers.now < 128 }
    ensures positive { ArePositive numbers.now }
    ensures cells { result.0 ≡ used numbers.now }
    ensures few { result.0 < 128 }
    ensures roomy { IsRoomyFrom numbers.now result.1 }
{
    let mut cells = 0;
    let mut longest = 0;
    for k in 0..numbers.len() {
        cells += usize::from(numbers[k]) + 1;
        longest = longest.max(numbers[k]);
    }
    if numbers.is_empty() {
        return (cells, TOO_MANY);
    }
    (cells, cells + usize::from(longest) - 1)
}

/// A line's clue, spelled once for all visits, and from how many cells on a line is roomy for it. Its numbers are the runs
/// of the black cells that are spelled.
#[derive(Drop)]
pub(crate) struct SpelledClue<P: Slots> {
    steps: TrackSlots<P>,
    roomy_from: usize,
}

impl<P: Slots> Model for SpelledClue<P> {
    ghost use Rattle.std.specs.Prelude.{◌≡◌, ℕ, List};
    ghost use Rattle.pattern_core.specs.Lines.{IsRoomyFrom};
    ghost use Rattle.pattern_core.specs.Track.{along, clue_along, slots_of, IsTrack};

    ghost Value = { List ℕ };

    ghost view = { λ c. clue_along P.room (along (slots_of P.bits) c.steps) };

    ghost invariant = { λ c. (IsTrack P.room (along (slots_of P.bits) c.steps))
        × IsRoomyFrom (clue_along P.room (along (slots_of P.bits) c.steps)) c.roomy_from };
}

impl<P: Slots> SpelledClue<P> {
    /// The clue with these numbers, for which a line of so many cells is roomy, and each longer one.
    pub(crate) fn new(numbers: &[u8], roomy_from: usize) -> SpelledClue<P>
        requires positive { ArePositive numbers.now }
        requires fits { used numbers.now < P.room }
        requires roomy { IsRoomyFrom numbers.now roomy_from }
        ensures { result ≡ numbers.now }
    {
        SpelledClue {
            steps: spell(numbers),
            roomy_from,
        }
    }

    /// Whether a line of so many cells is known to be roomy for the clue.
    pub(crate) fn is_roomy(&self, cells: usize) -> bool
        requires { cells < 1000 }
        ensures { result ≡ true → IsRoomy self.now cells }
    {
        self.roomy_from <= cells
    }

    /// How a line goes along the clue.
    #[tactic(auto, using(crate::proofs::SpelledRuns::track_under))]
    pub(crate) fn steps(&self) -> TrackSlots<P>
        ensures track { along (slots_of P.bits) result ≡ track_of (spelled self.now) }
        ensures positive { ArePositive self.now }
        ensures below { IsBelow P.room (along (slots_of P.bits) result) }
    {
        self.steps
    }
}
