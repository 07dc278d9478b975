//! How grids of Solo are printed and read. A number is one less than what is printed of it, in
//! decimal, with one space between two cells.

ghost use Rattle.std.specs.Prelude.{◌≡◌, ◌<◌, ◌≤◌, ◌++◌, ℕ, List, false, length, decimal};
ghost use Rattle.std.specs.Char.{is_ascii_digit};
ghost use Rattle.gameid_core.specs.Common.{begins, hides_nothing, solo_n};
ghost use Rattle.gameid_core.specs.SoloText.{ReadsNumber, solo_cell, solo_extent};

use crate::grids::printed::Printed;
use crate::grids::readable::Readable;
use crate::solo::puzzle::SoloPuzzle;
use crate::text::number::leading_number;
use crate::text::piece::Piece;
use grid_core::{Grid, Size};

impl Printed for SoloPuzzle {
    ghost extent = { solo_extent };

    ghost value_count = { λ p. solo_n p };

    ghost cell_text = { solo_cell };

    fn grid_size(&self) -> Size {
        Size::new(self.n(), self.n()).unwrap()
    }

    fn push_cell(&self, piece: &mut Piece, grid: &Grid, place: usize) {
        if place % usize::from(self.n()) != 0 {
            piece.push(b' ');
        }
        piece.push_number(grid.get(place) + 1);
    }
}

impl Readable for SoloPuzzle {
    ghost hides = { λ p. hides_nothing };

    fn read_cell(&self, text: &[u8], place: usize) -> Option<(u8, usize)> {
        let spaces = usize::from(place % usize::from(self.n()) != 0);
        if spaces > text.len() {
            return None;
        }
        let (number, digits) = number_at(&text[spaces..]);
        if number == 0 || number > u32::from(self.n()) {
            return None;
        }
        Some(((number - 1) as u8, spaces + digits))
    }
}

/// The number that the text begins with, or 0, and how many digits it has. No number above 1000 is told from 1000.
fn number_at(text: &[u8]) -> (u32, usize)
    ensures within { result.1 ≤ length text.now }
    ensures read { ReadsNumber text.now result }
{
    let (number, rest) = leading_number(text);
    (number, text.len() - rest.len())
}
