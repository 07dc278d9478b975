//! Count rules, as rules that are searched on planes: by sweeps.

ghost use Rattle.std.specs.Prelude.{◌*◌, ◌≡◌, ℕ, refl, true};
ghost use Rattle.fields_core.specs.Common.{AreMet, AreShortEnough, Extent, IsExtent, IsFlagged, IsGrid, Needs, needs_in, rules_of};

use crate::count::game::CountGame;
use crate::count::rules::CountRules;
use engine_core::{BinaryRules, Needs, PlaneNotes, PlanePosition, PlaneRules, Searchable};
use grid_core::{Grid, Size};

/// A puzzle of count houses whose cells make a grid.
pub trait GridGame: CountGame {
    /// The size of its grid.
    ghost extent: { Self → Extent };

    /// Words of 64 places are long enough for all puzzles of these sizes.
    ghost all_short: { Needs → Type 0 };

    /// The size of its grid.
    fn size(&self) -> Size
        ensures value { result ≡ extent self.now }
        ensures lawful { IsExtent result }
        ensures short { AreShortEnough all_short (rules_of (Self.counts self.now)) result };

    /// Whether words of 64 places are known to be long enough for all puzzles of these sizes.
    fn are_short(&self, made: Needs) -> bool
        ensures { result ≡ true → all_short (needs_in made) };

    /// The grid has the cells of the board.
    ghost cells_are: { (p : Self) → (extent p).w * (extent p).h ≡ (Self.counts p).cells };
}

/// A puzzle of count houses that is closed on planes.
pub trait PlaneGame: GridGame {
    /// What its rules keep beside planes of words of 64 places.
    type Short: PlaneNotes<u64, CountRules<Self>>;

    /// What its rules keep beside planes of words of 128 places.
    type Long: PlaneNotes<u128, CountRules<Self>>;

    /// Whether the grid is a solution, where blocked cells hold 0 and each house with a cell is met.
    fn completes(&self, unmet: bool, scratch: &mut Self::Scratch, grid: &Grid) -> bool
        requires flagged { IsFlagged (Self.counts self.now) Self.flags unmet }
        requires fits { IsGrid ((Self.counts self.now).cells) 2 grid.now }
        requires served { Self.serves scratch.old ((Self.counts self.now).cells) }
        requires met { AreMet (Self.counts self.now) grid.now }
        ensures solution { result ≡ (Self.counts self.now).is_solution grid.now }
        ensures keeps { (n : ℕ) → Self.serves scratch.old n → Self.serves scratch.new n };
}

impl<P: GridGame> BinaryRules for CountRules<P> {
    ghost use Rattle.fields_core.specs.CountLaws.{count-alive};

    ghost extent = { λ r. P.extent r.puzzle };

    ghost all_short = { P.all_short };

    fn size(&self) -> Size {
        self.puzzle.size()
    }

    fn are_short(&self, made: Needs) -> bool {
        self.puzzle.are_short(made)
    }

    ghost two = { λ _. refl };

    ghost cells_are = { λ r. P.cells_are r.puzzle };

    ghost alive = { λ r. count-alive (P.counts r.puzzle) };
}

impl<P: PlaneGame> PlaneRules for CountRules<P> {
    type Short = P::Short;

    type Long = P::Long;

    fn completes(&self, scratch: &mut P::Scratch, grid: &Grid) -> bool {
        self.puzzle.completes(self.measured.unmet, scratch, grid)
    }
}

impl<P: PlaneGame> Searchable for CountRules<P> {
    type Position = PlanePosition<CountRules<P>>;
}
