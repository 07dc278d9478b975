//! Cells of a row and of the rows beside it as words, and the places that they are beside.

ghost use Rattle.std.specs.Prelude.{◌+◌, ◌<◌, ◌==◌, ◌≡◌, ◌≤◌, false, nat_lt, ℕ};
ghost use Rattle.std.specs.List.{count_by};
ghost use Rattle.fields_core.specs.Common.{AreBeside, IsNear, planes_have, has_bit};

use grid_core::{Planes, Word};

/// Some cells of a row, of the row above it and of the one below.
#[derive(Clone, Copy)]
pub(crate) struct ThreeRows<W> {
    pub(crate) above: W,
    pub(crate) own: W,
    pub(crate) below: W,
}

impl<W: Word> ThreeRows<W> {
    /// The rows before the first one, which has these cells.
    pub(crate) fn first(below: W) -> ThreeRows<W>
        ensures none { (x : ℕ) → has_bit (W.bits result.own) x ≡ false }
        ensures below { result.below ≡ below }
    {
        let none = W::none();
        ThreeRows {
            above: none,
            own: none,
            below,
        }
    }

    /// The same of the next row, with these cells of the row below it.
    pub(crate) fn next(self, below: W) -> ThreeRows<W>
        ensures { result ≡ record { above = self.own; own = self.below; below = below } }
    {
        ThreeRows {
            above: self.own,
            own: self.below,
            below,
        }
    }

    /// The places of the row that one of the cells is beside.
    pub(crate) fn some(self) -> W
        ensures { AreBeside W.bits W.room self (nat_lt 0) result }
    {
        let across = self.own.on().either(self.own.back());
        self.above.either(self.below).either(across)
    }

    /// The places of the row that just one of the cells is beside.
    pub(crate) fn just_one(self) -> W
        ensures { AreBeside W.bits W.room self (λ number. number == 1) result }
    {
        let left = self.own.on();
        let right = self.own.back();
        let along = self.above.either(self.below);
        let across = left.either(right);
        along
            .differ(across)
            .but(self.above.both(self.below))
            .but(left.both(right))
    }
}

/// The cells of a row, and of the rows above and below it, that can be a one.
pub(crate) fn ones_near<W: Word>(planes: &Planes<W>, y: u8) -> ThreeRows<W>
    requires y_in { y < planes.now.size.h }
    ensures ones { IsNear W.bits planes.now.size (λ c. planes_have planes.now c 1) y result }
    ensures narrow { planes.now.size.w ≤ W.room }
{
    let none = W::none();
    ThreeRows {
        above: if y > 0 { planes.row(y - 1, 1) } else { none },
        own: planes.row(y, 1),
        below: if y + 1 < planes.size().h() {
            planes.row(y + 1, 1)
        } else {
            none
        },
    }
}
