//! What a board of planes is: a grid, or a cell to branch on, and a trial of a value there.
#![tactic(auto)]

ghost use Rattle.std.specs.Prelude.{◌≡◌, ◌*◌, ◌<◌, ◌≤◌, length, true, None};
ghost use Rattle.grid_core.specs.Candidates.{count_below, grid_of, is_full, only, pick};
ghost use Rattle.grid_core.specs.Planes.{planes_have, plane_cells, IsFurther};

use crate::grid::Grid;
use crate::planes::Planes;
use crate::planes::line::Line;
use crate::planes::word::Word;

impl<W: Word> Planes<W> {
    /// The cell to branch on: the lowest that can have both values, where no cell above the row `from` can.
    pub fn pick(&self, from: u8) -> Option<usize>
        requires from_in { from ≤ self.now.size.h }
        requires none { pick (from * self.now.size.w) 2 (planes_have self.now) ≡ None }
        ensures { result ≡ pick (plane_cells self.now) 2 (planes_have self.now) }
    {
        let size = self.size();
        for y in from..size.h() {
            let open = self.row(y, 0).both(self.row(y, 1));
            if open.is_some() {
                return Some(usize::from(y) * usize::from(size.w()) + open.lowest());
            }
        }
        None
    }

    /// Leaves that value alone in a cell that can have both, and notes the other.
    pub fn assign(&mut self, place: usize, value: u8)
        requires place_in { place < plane_cells self.old }
        requires value_in { value < 2 }
        requires several { 2 ≤ count_below (planes_have self.old place) 2 }
        ensures left { planes_have self.new ≡ only (planes_have self.old) place value }
        ensures further { IsFurther self.old self.new }
    {
        let (y, x) = self.split(place);
        self.take(Line::Row(y as u8), 1 - value, W::one(x));
    }

    /// Writes each cell's only value.
    pub fn write_grid(&self, grid: &mut Grid)
        requires full { is_full (plane_cells self.now) 2 (planes_have self.now) ≡ true }
        requires long { length grid.old ≡ plane_cells self.now }
        ensures { grid.new ≡ grid_of (plane_cells self.now) 2 (planes_have self.now) }
    {
        let size = self.size();
        let w = usize::from(size.w());
        for y in 0..size.h() {
            let ones = self.row(y, 1);
            for x in 0..w {
                grid.set(usize::from(y) * w + x, u8::from(ones.has(x)));
            }
        }
    }
}
