//! What only a game knows of rules that are made of listed houses.

ghost use Rattle.std.specs.Prelude.{◌<◌, ◌≡◌, Bool, IfOk, List, ℕ, length, true};
ghost use Rattle.engine_core.specs.Common.{has, SameShape, RuleSystem, IsLawful, IsClosedGrid, IsGridOf, Needs, needs_of, FitsIn, IsBoardOf, AreSets, IsKeptOf, AreScopesOf, StillServes, listed_visits};

use crate::houses::list::HouseList;
use grid_core::{Board, Grid};
use std::alloc::{AllocError, Global};

/// All that rules are made of: what their houses decide, the places of each house, and how many cells and values a board has.
pub struct RuleParts<S> {
    pub set: S,
    pub houses: HouseList,
    pub cells: usize,
    pub values: u8,
}

/// The rules of one puzzle, but for what they do along the lists of its houses. A board is closed by a queue.
pub trait RuleSet: Drop + Sized {
    /// What the rules are made of.
    type Puzzle;

    /// What a visit of a house, and the test of a grid, work in.
    type Scratch: Drop;

    /// After a visit the house itself strikes nothing more.
    const SETTLED: bool;

    /// The puzzle whose rules these are.
    ghost puzzle_of: { Self → Self.Puzzle };

    /// What is known of each puzzle.
    ghost known: { Self.Puzzle → Type 0 };

    /// What the rules of a puzzle mean.
    ghost system: { Self.Puzzle → RuleSystem };

    /// The places of each house.
    ghost scopes: { Self.Puzzle → List (List ℕ) };

    ghost SETTLED: { Bool };

    /// The scratch is large enough for rules of these sizes.
    ghost serves: { Self.Scratch → Needs → Type 0 };

    /// The rules of the puzzle, of which they keep a copy, with the places of its houses.
    fn parts(alloc: Global, puzzle: &Self::Puzzle) -> Result<RuleParts<Self>, AllocError>
        ensures known { known puzzle.now }
        ensures copied { IfOk result (λ parts. puzzle_of parts.set ≡ puzzle.now) }
        ensures scopes { IfOk result (λ parts. parts.houses.closed ≡ scopes puzzle.now) }
        ensures cells { IfOk result (λ parts. parts.cells ≡ (system puzzle.now).cells) }
        ensures values { IfOk result (λ parts. parts.values ≡ (system puzzle.now).values) };

    /// Writes the board that a search starts from, whatever it held.
    fn start(&self, board: &mut Board)
        requires { IsBoardOf (system (puzzle_of self.now)) board.old }
        ensures start { has board.new ≡ (system (puzzle_of self.now)).start }
        ensures shape { SameShape board.old board.new };

    /// Takes the memory that the rules work in.
    fn scratch(&self, alloc: Global) -> Result<Self::Scratch, AllocError>
        ensures { IfOk result (λ scratch.
            serves scratch (needs_of (system (puzzle_of self.now)))) };

    /// Decides what a visit of the house keeps of the sets of its cells, which are given as bits in the order of its scope.
    /// Says whether anything may be struck; else nothing is, whatever is in `kept`.
    fn filter(
        &self,
        house: usize,
        sets: &[u32],
        kept: &mut [u32],
        scratch: &mut Self::Scratch,
    ) -> bool
        requires house_in { house < (system (puzzle_of self.now)).houses }
        requires as_many { length kept.old ≡ length sets.now }
        requires served { serves scratch.old (needs_of (system (puzzle_of self.now))) }
        requires sets { AreSets (system (puzzle_of self.now)) house sets.now }
        ensures kept { IsKeptOf (system (puzzle_of self.now)) house sets.now result kept.new }
        ensures keeps { StillServes serves scratch.old scratch.new };

    /// Whether the grid is a solution. It has a number below `values` for each cell, by place.
    fn accept(&self, scratch: &mut Self::Scratch, grid: &Grid) -> bool
        requires fits { IsGridOf (system (puzzle_of self.now)) grid.now }
        requires served { serves scratch.old (needs_of (system (puzzle_of self.now))) }
        ensures solution { result ≡ (system (puzzle_of self.now)).is_solution grid.now }
        ensures keeps { StillServes serves scratch.old scratch.new };

    /// Whether the grid, from which no house strikes anything, is a solution. Rules whose houses say all of a solution need
    /// not look at it.
    fn completes(&self, scratch: &mut Self::Scratch, grid: &Grid) -> bool
        requires closed { IsClosedGrid (system (puzzle_of self.now)) grid.now }
        requires served { serves scratch.old (needs_of (system (puzzle_of self.now))) }
        ensures solution { result ≡ (system (puzzle_of self.now)).is_solution grid.now }
        ensures keeps { StillServes serves scratch.old scratch.new }
    {
        self.accept(scratch, grid)
    }

    ghost knows: { (set : Self) → known (puzzle_of set) };

    /// The rules keep to what every search relies on.
    ghost lawful: { (puzzle : Self.Puzzle) → known puzzle → IsLawful (system puzzle) };

    ghost settled_is: { (puzzle : Self.Puzzle) → (system puzzle).visits_settle ≡ SETTLED };

    ghost by_queue: { (puzzle : Self.Puzzle) → (system puzzle).by_queue ≡ true };

    /// The houses have these places.
    ghost scopes_are: { (puzzle : Self.Puzzle) → AreScopesOf (system puzzle) (scopes puzzle) };

    /// A closing makes as many visits at most as the houses can call for.
    ghost bound_is: { (puzzle : Self.Puzzle)
        → (system puzzle).bound ≡ listed_visits (system puzzle).values (scopes puzzle) };

    /// A scratch serves smaller rules too.
    ghost serves_smaller: { (scratch : Self.Scratch) (need had : Needs) → FitsIn need had
        → serves scratch had → serves scratch need };
}
