//! The lines in which cells lost a value.
#![tactic(auto)]

ghost use Rattle.std.specs.Prelude.{◌≡◌, ℕ, ◌<◌, ◌≤◌, true};
ghost use Rattle.grid_core.specs.Planes.{planes_have, back_at, crosses, number_of, AreLinesOf, ArePlanes, IsLostIn};

use crate::planes::Planes;
use crate::planes::line::Line;
use crate::planes::word::Word;

/// Columns and rows.
#[derive(Clone, Copy)]
pub struct Touched<W> {
    pub columns: W,
    pub rows: W,
}

impl<W: Word> Touched<W> {
    /// The lines of these cells of a line.
    #[tactic(auto, unfolding(crate::specs::Planes::crosses))]
    fn of(line: Line, cells: W) -> Touched<W>
        requires { number_of line < W.room }
        ensures { (y x : ℕ) → crosses line (W.bits cells) y x ≡ true
            → AreLinesOf W.bits result y x }
    {
        match line {
            Line::Row(y) => Touched {
                columns: cells,
                rows: W::one(usize::from(y)),
            },
            Line::Column(x) => Touched {
                columns: W::one(usize::from(x)),
                rows: cells,
            },
        }
    }

    /// The lines of both.
    fn either(self, other: Touched<W>) -> Touched<W>
        ensures own { (y x : ℕ) → AreLinesOf W.bits self y x → AreLinesOf W.bits result y x }
        ensures other { (y x : ℕ) → AreLinesOf W.bits other y x → AreLinesOf W.bits result y x }
    {
        Touched {
            columns: self.columns.either(other.columns),
            rows: self.rows.either(other.rows),
        }
    }
}

impl<W: Word> Planes<W> {
    /// The lines of the cells that lost 0 since the trail had that length, and of those that lost 1.
    pub fn lost(&self, len: usize) -> (Touched<W>, Touched<W>)
        requires { len ≤ self.now.len }
        ensures zeros { IsLostIn W.bits self.now.size.w 0 (back_at self.now len) (planes_have self.now)
            result.0 }
        ensures ones { IsLostIn W.bits self.now.size.w 1 (back_at self.now len) (planes_have self.now)
            result.1 }
        ensures lawful { ArePlanes W.room self.now }
    {
        let none = Touched {
            columns: W::none(),
            rows: W::none(),
        };
        let mut zeros = none;
        let mut ones = none;
        for k in len..self.len {
            let change = self.changes[k];
            let lines = Touched::of(change.line, change.bits);
            if change.value == 0 {
                zeros = zeros.either(lines);
            } else {
                ones = ones.either(lines);
            }
        }
        (zeros, ones)
    }
}
