//! How grids of Pattern are printed and read. A number is 0 for a white cell, which is printed as
//! `.`, and 1 for a black one, `#`.

ghost use Rattle.gameid_core.specs.Common.{hides_nothing};
ghost use Rattle.gameid_core.specs.PatternText.{pattern_cell};

use crate::grids::printed::Printed;
use crate::grids::readable::{Readable, read_symbol};
use crate::pattern::puzzle::PatternPuzzle;
use crate::text::piece::Piece;
use grid_core::{Grid, Size};

impl Printed for PatternPuzzle {
    ghost extent = { λ p. p.size };

    ghost value_count = { λ p. 2 };

    ghost cell_text = { pattern_cell };

    fn grid_size(&self) -> Size {
        self.size()
    }

    fn push_cell(&self, piece: &mut Piece, grid: &Grid, place: usize) {
        let black = grid.get(place) == 1;
        piece.push(if black { b'#' } else { b'.' });
    }
}

impl Readable for PatternPuzzle {
    ghost hides = { λ p. hides_nothing };

    fn read_cell(&self, text: &[u8], _place: usize) -> Option<(u8, usize)> {
        read_symbol(text, b'#')
    }
}
