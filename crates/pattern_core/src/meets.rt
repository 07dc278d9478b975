//! Whether a line of a grid goes along its spelled clue to the end.

ghost use Rattle.std.specs.Prelude.{◌≡◌, ◌<◌, ◌*◌};
ghost use Rattle.pattern_core.specs.Below.{IsGrid, line_numbers, lines_of};
ghost use Rattle.pattern_core.specs.Lines.{has_runs};
ghost use Rattle.pattern_core.specs.Track.{AreLed, set_for, slots_of};

use crate::slots::Slots;
use crate::table::ways_of;
use crate::track::{SpelledClue, TrackSlots};
use grid_core::{Grid, Size, line_len, line_value};

/// Which slots are reached by a cell with this number, by those that are reached before it.
fn led_on<P: Slots>(steps: TrackSlots<P>, number: u8, reached: P) -> P
    ensures { AreLed P.room (slots_of P.bits) steps (set_for number) reached result }
{
    let ways = ways_of(steps, reached);
    if number == 0 { ways.white } else { ways.black }
}

/// Whether the line's runs are the clue: whether its cells reach an end of the clue.
pub(crate) fn meets<P: Slots>(size: Size, grid: &Grid, line: usize, clue: &SpelledClue<P>) -> bool
    requires grid { IsGrid (size.w * size.h) 2 grid.now }
    requires line { line < lines_of size }
    ensures { result ≡ has_runs clue.now (line_numbers size grid.now line) }
{
    let steps = clue.steps();
    let mut reached = P::first();
    for k in 0..line_len(size, line) {
        reached = led_on(steps, line_value(size, grid, line, k), reached);
    }
    reached.both(steps.ends).is_some()
}
