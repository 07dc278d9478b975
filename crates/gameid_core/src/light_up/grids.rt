//! How grids of Light Up are printed and read. A number is 1 for a bulb, which is printed as `O`, and
//! else 0: `.` for a white cell, `#` for a black one without a number, and its digit for another.

ghost use Rattle.gameid_core.specs.LightText.{light_hides, light_cell};

use crate::grids::printed::Printed;
use crate::grids::readable::{Readable, read_hidden, read_symbol};
use crate::light_up::cell::LightCell;
use crate::light_up::puzzle::LightPuzzle;
use crate::text::piece::Piece;
use grid_core::{Grid, Size};

impl Printed for LightPuzzle {
    ghost extent = { λ p. p.size };

    ghost value_count = { λ p. 2 };

    ghost cell_text = { light_cell };

    fn grid_size(&self) -> Size {
        self.size()
    }

    #[tactic(auto, using(crate::proofs::DigitLaws::digits))]
    fn push_cell(&self, piece: &mut Piece, grid: &Grid, place: usize) {
        match self.cell(place) {
            LightCell::White if grid.get(place) == 1 => piece.push(b'O'),
            LightCell::White => piece.push(b'.'),
            LightCell::Black => piece.push(b'#'),
            LightCell::Numbered(number) => piece.push(b'0' + number),
        }
    }
}

impl Readable for LightPuzzle {
    ghost hides = { light_hides };

    fn read_cell(&self, text: &[u8], place: usize) -> Option<(u8, usize)> {
        match self.cells()[place] {
            LightCell::White => read_symbol(text, b'O'),
            _ => read_hidden(text),
        }
    }
}
