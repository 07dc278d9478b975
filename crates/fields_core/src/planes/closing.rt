//! Closings of a board of count houses on planes, by sweeps.

ghost use Rattle.std.specs.Prelude.{◌≡◌, true};
ghost use Rattle.engine_core.specs.ClosingList.{IsAlive};
ghost use Rattle.fields_core.specs.Common.{AreKept, HasBoard, IsClosedIn, IsClosedByCounts, IsCounted, IsFurther, IsSweep, Layers, Needs, planes_have, rules_of};

use crate::count::game::CountGame;
use crate::planes::rules::GridGame;
use engine_core::{Closing, Taken};
use grid_core::{Planes, Word};

/// What is kept of a puzzle beside planes of such words, and which houses wait while a board is closed by sweeps.
pub trait SweepNotes<W: Word, P: CountGame>: Sized {
    /// They serve puzzles of these sizes.
    ghost fits: { Self → Needs → Type 0 };

    /// They are of this puzzle.
    ghost written: { P → Self → Type 0 };

    /// They are, and each house that does not wait strikes nothing from these planes.
    ghost ready: { P → Layers → Self → Type 0 };

    /// Visits each house once that waits, in ascending order, up to one that has no filling. Says whether there is none such.
    fn sweep(&mut self, planes: &mut Planes<W>, puzzle: &P) -> bool
        requires { ready puzzle.now planes.old self.old }
        ensures swept { IsSweep (rules_of (P.counts puzzle.now)) planes.old planes.new result }
        ensures ready { result ≡ true → ready puzzle.now planes.new self.new }
        ensures kept { AreKept fits written self.old self.new };
}

/// Closes the board by sweeps, until one takes nothing or a cell would be left without a value: what board is left then
/// is open. Those sweeps count that took something, and the one that stopped; one at least. At first each house waits that
/// strikes anything.
pub(crate) fn close<W: Word, P: GridGame, N: SweepNotes<W, P>>(
    notes: &mut N,
    planes: &mut Planes<W>,
    puzzle: &P,
) -> Taken
    requires counted { IsCounted (P.counts puzzle.now) }
    requires board { HasBoard (rules_of (P.counts puzzle.now)) (P.extent puzzle.now) W.room
        planes.old }
    requires ready { N.ready puzzle.now planes.old notes.old }
    ensures taken { IsClosedByCounts (P.counts puzzle.now) planes.old planes.new result.closing }
    ensures turns { IsClosedIn (rules_of (P.counts puzzle.now)) (planes_have planes.old) result.turns }
    ensures alive { IsAlive (rules_of (P.counts puzzle.now)) (planes_have planes.new) }
    ensures further { IsFurther planes.old planes.new }
    ensures kept { AreKept N.fits N.written notes.old notes.new }
{
    let mut sweeps = 0;
    'closing: loop {
        let before = planes.len();
        if !notes.sweep(planes, puzzle) {
            return Taken {
                closing: Closing::Dead,
                turns: sweeps + 1,
            };
        }
        if planes.len() == before {
            return Taken {
                closing: Closing::Open,
                turns: sweeps.max(1),
            };
        }
        sweeps += 1;
    }
}
