//! How many columns and rows a grid has.

ghost use Rattle.std.specs.Prelude.{◌≡◌, ◌*◌, Some};
ghost use Rattle.std.specs.Option.{SomeIff};
ghost use Rattle.grid_core.specs.Extent.{Extent, IsExtent};

use std::marker::Model;

/// The most cells that a side of a grid has.
pub const MAX_SIDE: u8 = 120;

/// How many columns and rows a grid has, each from 1 to `MAX_SIDE`.
#[derive(Clone, Copy, Debug, PartialEq, Eq)]
pub struct Size {
    w: u8,
    h: u8,
}

impl Model for Size {
    ghost use Rattle.std.specs.Prelude.{◌<◌};
    ghost use Rattle.grid_core.specs.Extent.{Extent, IsExtent};

    ghost Value = { Extent };

    ghost view = { λ s. record { w = s.w; h = s.h } };

    ghost invariant = { λ s. IsExtent (record { w = s.w; h = s.h }) };

    ghost inverse = { λ e. record { w = e.w; h = e.h } };
}

impl Size {
    /// The size of `w` columns and `h` rows, where both are from 1 to `MAX_SIDE`.
    pub fn new(w: u8, h: u8) -> Option<Size>
        ensures exact { SomeIff result (IsExtent (record { w = w; h = h }))
            (record { w = w; h = h }) }
        ensures taken { IsExtent (record { w = w; h = h })
            → result ≡ Some (record { w = w; h = h }) }
    {
        if w == 0 || w > MAX_SIDE || h == 0 || h > MAX_SIDE {
            return None;
        }
        Some(Size { w, h })
    }

    /// The number of columns.
    pub fn w(self) -> u8
        ensures value { result ≡ self.w }
        ensures lawful { IsExtent self }
    {
        self.w
    }

    /// The number of rows.
    pub fn h(self) -> u8
        ensures value { result ≡ self.h }
        ensures lawful { IsExtent self }
    {
        self.h
    }

    /// The number of cells.
    pub fn cells(self) -> usize
        ensures value { result ≡ self.w * self.h }
        ensures lawful { IsExtent self }
    {
        usize::from(self.w) * usize::from(self.h)
    }
}
