//! How grids of Tents are printed and read. A number is 1 for a tent, which is printed as `^`, and
//! else 0: `T` for a tree, and `.` for any other cell.

ghost use Rattle.gameid_core.specs.TentsText.{tent_hides, tents_cell};

use crate::grids::printed::Printed;
use crate::grids::readable::{Readable, read_hidden, read_symbol};
use crate::tents::puzzle::TentsPuzzle;
use crate::text::piece::Piece;
use grid_core::{Grid, Size};

impl Printed for TentsPuzzle {
    ghost extent = { λ p. p.size };

    ghost value_count = { λ p. 2 };

    ghost cell_text = { tents_cell };

    fn grid_size(&self) -> Size {
        self.size()
    }

    fn push_cell(&self, piece: &mut Piece, grid: &Grid, place: usize) {
        let free = if grid.get(place) == 1 { b'^' } else { b'.' };
        let tree = self.trees()[place] == 1;
        piece.push(if tree { b'T' } else { free });
    }
}

impl Readable for TentsPuzzle {
    ghost hides = { tent_hides };

    fn read_cell(&self, text: &[u8], place: usize) -> Option<(u8, usize)> {
        if self.trees()[place] == 1 {
            read_hidden(text)
        } else {
            read_symbol(text, b'^')
        }
    }
}
