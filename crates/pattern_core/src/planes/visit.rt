//! A visit of a line on planes.

ghost use Rattle.std.specs.Prelude.{◌<◌, ◌≡◌, ◌≤◌, None, true, ℕ};
ghost use Rattle.grid_core.specs.Planes.{has_without, line_len, taking};
ghost use Rattle.pattern_core.specs.Below.{IsAlive, IsFurther, planes_have, has_bit, lines_beside, number_of};
ghost use Rattle.pattern_core.specs.LinePlanes.{IsVisitOf, line_house};
ghost use Rattle.pattern_core.specs.LineRules.{line_rules};

use crate::line_scratch::LineScratch;
use crate::lines::PatternLines;
use crate::planes::filter::Cells;
use grid_core::{Line, Planes, Size, Word, line_len};

/// The number of a line as a house: the columns come first.
fn line_house(size: Size, line: Line) -> usize
    ensures { result ≡ line_house size line }
{
    match line {
        Line::Column(x) => usize::from(x),
        Line::Row(y) => usize::from(size.w()) + usize::from(y),
    }
}

/// Takes the value from cells of a line, where there are any: most visits take one value, or none.
fn take_any<W: Word>(planes: &mut Planes<W>, line: Line, value: u8, bits: W)
    requires line_in { number_of line < lines_beside planes.old.size line }
    requires value_in { value < 2 }
    requires fits { line_len planes.old.size line ≤ W.room }
    requires within { (k : ℕ) → has_bit (W.bits bits) k ≡ true → k < line_len planes.old.size line }
    ensures left { planes_have planes.new ≡ has_without planes.old (taking W.bits line value bits) }
    ensures further { IsFurther planes.old planes.new }
{
    if bits.is_some() {
        planes.take(line, value, bits);
    }
}

/// Visits a line: takes from its cells what no filling with its clue's runs has. Says which of its cells lost a value, or
/// nothing where one would lose its last: then nothing is taken.
pub(crate) fn visit<W: Word>(
    planes: &mut Planes<W>,
    rules: &PatternLines,
    line: Line,
    scratch: &mut LineScratch,
) -> Option<W>
    requires size { planes.old.size ≡ rules.now.pattern.size }
    requires line_in { number_of line < lines_beside rules.now.pattern.size line }
    requires alive { IsAlive (line_rules rules.now.pattern) (planes_have planes.old) }
    ensures visited { IsVisitOf W.bits rules.now.pattern line planes.old planes.new result }
    ensures unchanged { result ≡ None → planes.new ≡ planes.old }
    ensures further { IsFurther planes.old planes.new }
{
    let size = rules.size();
    let house = line_house(size, line);
    let count = line_len(size, house);
    let now = Cells {
        white: planes.line(line, 0),
        black: planes.line(line, 1),
    };
    let kept = now.filter(count, rules.clue(house), scratch.rows());
    if W::all(count).but(kept.white.either(kept.black)).is_some() {
        return None;
    }
    let white = now.white.but(kept.white);
    let black = now.black.but(kept.black);
    take_any(planes, line, 0, white);
    take_any(planes, line, 1, black);
    Some(white.either(black))
}
