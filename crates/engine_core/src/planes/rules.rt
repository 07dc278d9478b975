//! What rules of two values write of a search on planes.

ghost use Rattle.std.specs.Prelude.{◌≡◌, ◌≤◌, ◌*◌, IfOk, length, true};
ghost use Rattle.grid_core.specs.Extent.{Extent, IsExtent};
ghost use Rattle.grid_core.specs.Planes.{IsFurther, planes_have};
ghost use Rattle.engine_core.specs.Common.{FitsIn, IsAlive, IsClosedBut, IsClosedGrid, IsClosedIn, IsTaken, Needs, StillServes, needs_in, needs_of};
ghost use Rattle.engine_core.specs.PlaneNotes.{AreKept, HasBoard, IsSuited};

use crate::mode::Taken;
use crate::needs::Needs;
use crate::rules::Rules;
use grid_core::{Grid, Planes, Size, Word};
use std::alloc::{AllocError, Global};

/// Rules of a grid whose cells hold 0 or 1.
pub trait BinaryRules: Rules {
    /// The size of the grid.
    ghost extent: { Self → Extent };

    /// Words of 64 places are long enough for all rules of these sizes.
    ghost all_short: { Needs → Type 0 };

    /// The size of the grid.
    fn size(&self) -> Size
        ensures value { result ≡ extent self.now }
        ensures lawful { IsExtent result }
        ensures short { (had : Needs) → FitsIn (needs_of (Self.system self.now)) (needs_in had)
            → all_short (needs_in had) → IsSuited result 64 };

    /// Whether words of 64 places are known to be long enough for all rules of these sizes.
    fn are_short(&self, made: Needs) -> bool
        ensures { result ≡ true → all_short (needs_in made) };

    /// A cell has two values.
    ghost two: { (rules : Self) → (Self.system rules).values ≡ 2 };

    /// The grid has the cells of the board.
    ghost cells_are: { (rules : Self)
        → (extent rules).w * (extent rules).h ≡ (Self.system rules).cells };

    /// A search begins with a value in each cell.
    ghost alive: { (rules : Self) → IsAlive (Self.system rules) (Self.system rules).start };
}

/// Rules whose boards are searched on planes.
pub trait PlaneRules: BinaryRules {
    /// What they keep beside planes of words of 64 places.
    type Short: PlaneNotes<u64, Self>;

    /// What they keep beside planes of words of 128 places.
    type Long: PlaneNotes<u128, Self>;

    /// Whether the grid, from which no house strikes anything, is a solution. Rules whose houses say all of a solution need
    /// not look at it.
    fn completes(&self, scratch: &mut Self::Scratch, grid: &Grid) -> bool
        requires closed { IsClosedGrid (Self.system self.now) grid.now }
        requires served { Self.serves scratch.old (needs_of (Self.system self.now)) }
        ensures solution { result ≡ (Self.system self.now).is_solution grid.now }
        ensures keeps { StillServes Self.serves scratch.old scratch.new };
}

/// What is kept of rules beside planes of such words, and how a board is closed on these.
pub trait PlaneNotes<W: Word, R: BinaryRules>: Drop + Sized {
    /// They serve rules of these sizes.
    ghost fits: { Self → Needs → Type 0 };

    /// They are of these rules.
    ghost written: { R → Self → Type 0 };

    /// Takes their memory.
    ///
    /// # Errors
    ///
    /// When memory was refused.
    fn new(alloc: Global, made: Needs) -> Result<Self, AllocError>
        ensures { IfOk result (λ notes. fits notes (needs_in made)) };

    /// Begins with the board that a search starts from. It takes no memory.
    fn start(&mut self, planes: &mut Planes<W>, rules: &R)
        requires fits { fits self.old (needs_of (R.system rules.now)) }
        requires suited { IsSuited (R.extent rules.now) W.room }
        requires few { (R.system rules.now).cells * 2 ≤ length planes.old.takings }
        ensures start { planes_have planes.new ≡ (R.system rules.now).start }
        ensures size { planes.new.size ≡ R.extent rules.now }
        ensures room { length planes.new.takings ≡ length planes.old.takings }
        ensures written { written rules.now self.new }
        ensures keeps { StillServes fits self.old self.new };

    /// Closes the board, or finds that its closure is dead: what board is left then is open, but that each cell has a value.
    /// Where `from` names a cell, the board was closed before that cell lost a value.
    fn close(
        &mut self,
        planes: &mut Planes<W>,
        rules: &R,
        scratch: &mut R::Scratch,
        from: Option<usize>,
    ) -> Taken
        requires fits { fits self.old (needs_of (R.system rules.now)) }
        requires written { written rules.now self.old }
        requires board { HasBoard (R.system rules.now) (R.extent rules.now) W.room planes.old }
        requires closed_but { IsClosedBut (R.system rules.now) (planes_have planes.old) from }
        ensures taken { IsTaken (R.system rules.now) (planes_have planes.old) (planes_have planes.new)
            result.closing }
        ensures turns { IsClosedIn (R.system rules.now) (planes_have planes.old) result.turns }
        ensures alive { IsAlive (R.system rules.now) (planes_have planes.new) }
        ensures further { IsFurther planes.old planes.new }
        ensures kept { AreKept fits written self.old self.new }
        ensures keeps { StillServes R.serves scratch.old scratch.new };

    /// Memory that serves rules serves smaller ones.
    ghost fits_smaller: { (notes : Self) (need had : Needs) → FitsIn need had
        → fits notes had → fits notes need };
}
