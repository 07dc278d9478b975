//! The words of planes: as they begin, and bits of a line turned over, in its word and in the words of its crossing lines.
#![tactic(auto)]

ghost use Rattle.std.specs.Prelude.{◌≡◌, ℕ, ◌+◌, ◌*◌, ◌<◌, ◌≤◌, false, length};
ghost use Rattle.grid_core.specs.Planes.{bit_in, taking, AreCrossed, AreLinesFilled, HasRoomForTaking, IsTurned, IsTurnedAcross, IsTurnedAlong};

use crate::fixed::Fixed;
use crate::planes::line::Line;
use crate::planes::word::Word;

/// Writes the word for both values of the first lines, so many, and no place for all others: of these the words of the first
/// `had` lines alone may have some.
pub(crate) fn write_lines<W: Word>(words: &mut Fixed<W>, had: usize, lines: usize, word: W)
    requires few { 2 * lines ≤ length words.old.items }
    requires had_few { 2 * had ≤ length words.old.items }
    requires others { (k place : ℕ) → 2 * had ≤ k → bit_in W.bits words.old.items k place ≡ false }
    ensures written { AreLinesFilled W.bits lines word words.new.items }
    ensures long { length words.new.items ≡ length words.old.items }
{
    let none = W::none();
    for k in 0..2 * had.max(lines) {
        let here = if k < 2 * lines { word } else { none };
        words[k] = here;
    }
}

/// Turns over the bits in the line's word of the value. In the words of the lines that cross it there it turns over the
/// bit of the line.
fn turn<W: Word>(along: &mut Fixed<W>, across: &mut Fixed<W>, line: usize, value: usize, bits: W)
    requires value_in { value < 2 }
    requires line_in { 2 * line + value < length along.old.items }
    requires line_room { line < W.room }
    requires bits_in { AreCrossed W.room (length across.old.items) value (W.bits bits) }
    ensures along { IsTurnedAlong W.bits line value bits along.old.items along.new.items }
    ensures across { IsTurnedAcross W.bits line value bits across.old.items across.new.items }
    ensures long { length along.new.items ≡ length along.old.items }
    ensures wide { length across.new.items ≡ length across.old.items }
{
    let word = along[2 * line + value];
    along[2 * line + value] = word.differ(bits);
    let own = W::one(line);
    let mut rest = bits;
    while rest.is_some() {
        let crossing = rest.lowest();
        let crossed = across[2 * crossing + value];
        across[2 * crossing + value] = crossed.differ(own);
        rest = rest.without_lowest();
    }
}

/// Turns over the bits of a line, in the words of the rows and of the columns.
#[tactic(auto, unfolding(crate::specs::Planes::crosses))]
pub(crate) fn turn_line<W: Word>(
    rows: &mut Fixed<W>,
    columns: &mut Fixed<W>,
    line: Line,
    value: u8,
    bits: W,
)
    requires { HasRoomForTaking W.room rows.old.items columns.old.items
        (taking W.bits line value bits) }
    ensures turned { IsTurned W.bits line value bits rows.old columns.old rows.new columns.new }
    ensures tall { length rows.new.items ≡ length rows.old.items }
    ensures wide { length columns.new.items ≡ length columns.old.items }
{
    match line {
        Line::Row(y) => turn(rows, columns, usize::from(y), usize::from(value), bits),
        Line::Column(x) => turn(columns, rows, usize::from(x), usize::from(value), bits),
    }
}
