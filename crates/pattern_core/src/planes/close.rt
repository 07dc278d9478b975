//! The closing of a board on planes.

ghost use Rattle.std.specs.Prelude.{◌&&◌, ◌<◌, ◌≡◌, ◌≤◌};
ghost use Rattle.pattern_core.specs.Below.{IsAlive, IsClosedBut, IsFurther, planes_have, number_of};
ghost use Rattle.engine_core.specs.Counts.{IsClosedIn};
ghost use Rattle.pattern_core.specs.LinePlanes.{AreLinesRested, AreLinesWithin, AreLinesMarked, HasLineRoom, IsClosedTo, IsStart, is_same};
ghost use Rattle.pattern_core.specs.LineRules.{line_rules};

use crate::line_scratch::LineScratch;
use crate::lines::PatternLines;
use crate::planes::visit::visit;
use crate::planes::waits::LinesWaiting;
use engine_core::{Closing, Taken};
use grid_core::{Line, Planes, Word};

/// The lines that wait, and that one where `on`.
fn waiting_if<W: Word>(waits: LinesWaiting<W>, line: Line, on: bool) -> LinesWaiting<W>
    requires { number_of line < W.room }
    ensures { AreLinesMarked W.bits waits (λ other. on && is_same line other) result }
{
    if on { waits.with(line) } else { waits }
}

/// The lines that may strike anything from the board that a search starts from.
fn at_start<W: Word>(rules: &PatternLines) -> LinesWaiting<W>
    requires narrow { rules.now.pattern.size.w ≤ W.room }
    requires low { rules.now.pattern.size.h ≤ W.room }
    ensures { IsStart W.bits rules.now.pattern result }
{
    let size = rules.size();
    let w = usize::from(size.w());
    let mut waits = LinesWaiting::none();
    for x in 0..size.w() {
        waits = waiting_if(waits, Line::Column(x), rules.may_strike(usize::from(x)));
    }
    for y in 0..size.h() {
        waits = waiting_if(waits, Line::Row(y), rules.may_strike(w + usize::from(y)));
    }
    waits
}

/// The lines that wait where a closing begins: those of the place, or where none is named those that may strike at the start.
fn first<W: Word>(planes: &Planes<W>, rules: &PatternLines, from: Option<usize>) -> LinesWaiting<W>
    requires size { planes.now.size ≡ rules.now.pattern.size }
    requires closed_but { IsClosedBut (line_rules rules.now.pattern) (planes_have planes.now) from }
    ensures rested { AreLinesRested W.bits rules.now.pattern (planes_have planes.now) result }
    ensures within { AreLinesWithin W.bits rules.now.pattern.size result }
    ensures fits { HasLineRoom W.room rules.now.pattern (planes_have planes.now) }
{
    let _size = planes.size(); // no side is longer than a word
    let Some(place) = from else {
        return at_start(rules);
    };
    let (y, x) = planes.split(place);
    LinesWaiting::none()
        .with(Line::Column(x as u8))
        .with(Line::Row(y as u8))
}

/// Closes the board: visits lines that wait, until none waits or a cell would lose its last value. Each visit counts.
pub(crate) fn close<W: Word>(
    planes: &mut Planes<W>,
    rules: &PatternLines,
    from: Option<usize>,
    scratch: &mut LineScratch,
) -> Taken
    requires size { planes.old.size ≡ rules.now.pattern.size }
    requires closed_but { IsClosedBut (line_rules rules.now.pattern) (planes_have planes.old) from }
    ensures taken { IsClosedTo rules.now.pattern planes.old planes.new result.closing }
    ensures turns { IsClosedIn (line_rules rules.now.pattern) (planes_have planes.old) result.turns }
    ensures alive { IsAlive (line_rules rules.now.pattern) (planes_have planes.new) }
    ensures further { IsFurther planes.old planes.new }
{
    let mut waits = first(planes, rules, from);
    let mut turns = 0;
    let mut in_rows = false;
    while let Some(line) = waits.next(in_rows) {
        turns += 1;
        in_rows = matches!(line, Line::Row(_));
        let Some(lost) = visit(planes, rules, line, scratch) else {
            return Taken {
                closing: Closing::Dead,
                turns,
            };
        };
        waits = waits.with_crossing(line, lost);
    }
    Taken {
        closing: Closing::Open,
        turns,
    }
}
