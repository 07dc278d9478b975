//! What rules of listed houses keep beside a board while it is searched.

pub(crate) mod plain;

ghost use Rattle.std.specs.Prelude.{◌<◌, ◌≡◌, IfNone, IfOk, IfSome, List, ℕ, length, slice_index};
ghost use Rattle.engine_core.specs.Common.{Candidates, FitsIn, IsAlive, IsBoardOf, IsDeadAfter, IsMarkedOut, KeepsOnly, Needs, SameBut, StillServes, count_below, has, needs_of};

use crate::house_rules::HouseRules;
use crate::rule_set::RuleSet;
use grid_core::Board;
use std::alloc::{AllocError, Global};

/// Rules of listed houses whose boards a store can search. Those that keep no notes name `PlainNotes`.
pub trait Noted: RuleSet {
    /// What is kept beside the board of a search.
    type Notes: Notes<Self>;
}

/// What rules keep beside a board, so that a visit need not look at each cell of a house. It stays true where values are
/// struck, as long as each cell keeps one: so only a cell that gets values back has to be told before.
pub trait Notes<S: RuleSet>: Drop + Sized {
    /// The notes are true of the board.
    ghost noted: { S.Puzzle → Candidates → Self → Type 0 };

    /// The notes are large enough for rules of these sizes.
    ghost made_for: { Self → Needs → Type 0 };

    /// The numbers of the cells that the last visit found to be struck from, and maybe more.
    ghost numbers: { Self → List ℕ };

    /// What the last visit of the house keeps of the sets of its cells, as bits.
    ghost kept_at: { Self → ℕ → List ℕ };

    /// Takes all the memory that searches by these rules, and by smaller ones, need.
    ///
    /// # Errors
    ///
    /// When memory was refused.
    fn new(alloc: Global, rules: &HouseRules<S>) -> Result<Self, AllocError>
        ensures { IfOk result (λ notes.
            made_for notes (needs_of (S.system (S.puzzle_of rules.now.set)))) };

    /// Notes all of the board that a search starts from, whatever was noted.
    fn begin(&mut self, rules: &HouseRules<S>, board: &Board)
        requires made { made_for self.old (needs_of (S.system (S.puzzle_of rules.now.set))) }
        requires board_of { IsBoardOf (S.system (S.puzzle_of rules.now.set)) board.now }
        requires start { has board.now ≡ (S.system (S.puzzle_of rules.now.set)).start }
        ensures noted { noted (S.puzzle_of rules.now.set) (has board.now) self.new }
        ensures keeps { StillServes made_for self.old self.new };

    /// Visits the house: decides from which of its cells anything is struck, and what is kept of their sets. Tells how many
    /// these cells are, or that the visit leaves a cell without a value.
    fn visit(
        &mut self,
        rules: &HouseRules<S>,
        house: usize,
        board: &Board,
        work: &mut S::Scratch,
    ) -> Option<usize>
        requires made { made_for self.old (needs_of (S.system (S.puzzle_of rules.now.set))) }
        requires noted { noted (S.puzzle_of rules.now.set) (has board.now) self.old }
        requires house_in { house < (S.system (S.puzzle_of rules.now.set)).houses }
        requires board_of { IsBoardOf (S.system (S.puzzle_of rules.now.set)) board.now }
        requires alive { IsAlive (S.system (S.puzzle_of rules.now.set)) (has board.now) }
        requires served { S.serves work.old (needs_of (S.system (S.puzzle_of rules.now.set))) }
        ensures struck { IfSome result (λ count. IsMarkedOut
            (S.system (S.puzzle_of rules.now.set)) house (has board.now) count
            (numbers self.new) (kept_at self.new house)) }
        ensures dead { IfNone result
            (IsDeadAfter (S.system (S.puzzle_of rules.now.set)) house (has board.now)) }
        ensures noted { noted (S.puzzle_of rules.now.set) (has board.now) self.new }
        ensures keeps { StillServes made_for self.old self.new }
        ensures serves { StillServes S.serves work.old work.new };

    /// The number, in its house, of the `i`-th cell that the last visit found.
    fn number(&self, i: usize) -> usize
        requires { i < length (numbers self.now) }
        ensures { result ≡ slice_index (numbers self.now) i };

    /// What the last visit of the house keeps of the sets of its cells.
    fn kept(&self, rules: &HouseRules<S>, house: usize) -> &[u32]
        requires made { made_for self.now (needs_of (S.system (S.puzzle_of rules.now.set))) }
        requires house_in { house < (S.system (S.puzzle_of rules.now.set)).houses }
        ensures { result.now ≡ kept_at self.now house };

    /// The cell of the place has one value: visits need not look at it any more.
    fn single(&mut self, rules: &HouseRules<S>, place: usize, board: &Board)
        requires made { made_for self.old (needs_of (S.system (S.puzzle_of rules.now.set))) }
        requires noted { noted (S.puzzle_of rules.now.set) (has board.now) self.old }
        requires place_in { place < (S.system (S.puzzle_of rules.now.set)).cells }
        requires board_of { IsBoardOf (S.system (S.puzzle_of rules.now.set)) board.now }
        requires one { count_below (has board.now place)
            (S.system (S.puzzle_of rules.now.set)).values ≡ 1 }
        ensures noted { noted (S.puzzle_of rules.now.set) (has board.now) self.new }
        ensures keeps { StillServes made_for self.old self.new };

    /// The cell of the place is to get values back: visits have to look at it again.
    fn back(&mut self, rules: &HouseRules<S>, place: usize, board: &Board)
        requires made { made_for self.old (needs_of (S.system (S.puzzle_of rules.now.set))) }
        requires noted { noted (S.puzzle_of rules.now.set) (has board.now) self.old }
        requires place_in { place < (S.system (S.puzzle_of rules.now.set)).cells }
        requires board_of { IsBoardOf (S.system (S.puzzle_of rules.now.set)) board.now }
        ensures noted { (L : Candidates) → SameBut place (has board.now) L
            → noted (S.puzzle_of rules.now.set) L self.new }
        ensures keeps { StillServes made_for self.old self.new };

    /// The notes stay true where each cell that has one value keeps it.
    ghost stays_noted: { (puzzle : S.Puzzle) (notes : Self) (K L : Candidates) → KeepsOnly K L
        → noted puzzle K notes → noted puzzle L notes };

    /// The notes serve smaller rules too.
    ghost made_for_smaller: { (notes : Self) (need had : Needs) → FitsIn need had
        → made_for notes had → made_for notes need };
}
