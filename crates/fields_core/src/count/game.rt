//! What only a game knows of rules whose houses count the ones of their cells.

ghost use Rattle.std.specs.Prelude.{◌<◌, ◌∷◌, ◌^◌, ◌≡◌, Bool, IfOk, List, ℕ, [], if◌then◌else◌, length};
ghost use Rattle.fields_core.specs.Common.{CountHouse, CountPuzzle, IsCounted, IsFlagged, IsGrid, IsMeasured, house_told, houses_of_kinds};

use crate::count::house::House;
use crate::count::name::Measured;
use grid_core::Grid;
use std::alloc::{AllocError, Global};

/// A puzzle whose cells hold 0 or 1, with houses that bound the number of ones in their cells.
pub trait CountGame: Drop + Sized {
    /// What the test of a grid works in.
    type Scratch: Drop;

    /// The kinds of its houses.
    type Kind: Copy + Drop;

    /// What it counts.
    ghost counts: { Self → CountPuzzle };

    /// The house of that kind which a place or a line tells, if there is one.
    ghost told: { Self → Self.Kind → ℕ → List CountHouse };

    /// The kinds, by number.
    ghost kind_of: { ℕ → Self.Kind };

    /// How many places or lines may tell houses of a kind.
    ghost span_of: { Self → Self.Kind → ℕ };

    /// Whether its flag tells which grids are solutions, of those that meet each house with a cell.
    ghost flags: { Bool };

    /// The scratch serves so many cells.
    ghost serves: { Self.Scratch → ℕ → Type 0 };

    /// The same puzzle once more.
    ///
    /// # Errors
    ///
    /// When memory was refused.
    fn again(&self, alloc: Global) -> Result<Self, AllocError>
        ensures { IfOk result (λ puzzle. puzzle ≡ self.now) };

    /// How many houses it has, how long the longest is, and its flag.
    fn measured(&self) -> Measured
        ensures counting { IsCounted (counts self.now) }
        ensures measured { IsMeasured (counts self.now).houses result }
        ensures flagged { IsFlagged (counts self.now) flags result.unmet };

    /// The kinds, by number.
    fn kind(number: usize) -> Self::Kind
        requires { number < 4 }
        ensures { result ≡ kind_of number };

    /// How many places or lines may tell houses of the kind.
    fn span(&self, kind: Self::Kind) -> usize
        ensures span { result ≡ span_of self.now kind }
        ensures few { result < 2 ^ 16 };

    /// Whether the place or the line tells a house of the kind.
    fn tells(&self, kind: Self::Kind, place: usize) -> bool
        requires { place < span_of self.now kind }
        ensures { length (told self.now kind place) ≡ (if result then 1 else 0) };

    /// The house of that kind which the place or the line tells.
    fn house(&self, kind: Self::Kind, place: usize) -> House
        requires one { length (told self.now kind place) ≡ 1 }
        ensures { told self.now kind place ≡ house_told result ∷ [] };

    /// How many cells it has.
    fn cells(&self) -> usize
        ensures { result ≡ (counts self.now).cells };

    /// Whether the cell can only hold 0.
    fn is_blocked(&self, place: usize) -> bool
        requires { place < (counts self.now).cells }
        ensures { result ≡ (counts self.now).blocked place };

    /// Takes the memory that the test of a grid works in.
    fn scratch(&self, alloc: Global) -> Result<Self::Scratch, AllocError>
        ensures { IfOk result (λ scratch. serves scratch ((counts self.now).cells)) };

    /// Whether the grid is a solution.
    fn accept(&self, scratch: &mut Self::Scratch, grid: &Grid) -> bool
        requires fits { IsGrid ((counts self.now).cells) 2 grid.now }
        requires served { serves scratch.old ((counts self.now).cells) }
        ensures solution { result ≡ (counts self.now).is_solution grid.now }
        ensures keeps { (n : ℕ) → serves scratch.old n → serves scratch.new n };

    /// The houses are those of each kind, each by place or line.
    ghost houses_are: { (p : Self) → (counts p).houses
        ≡ houses_of_kinds (told p) (span_of p) kind_of 4 };
}
