//! Puzzles whose clues can be taken away.

ghost use Rattle.std.specs.Prelude.{◌≡◌, ◌<◌, Some, IfOk, IsTrue, ℕ};
ghost use Rattle.engine_core.specs.RuleSystem.{RuleSystem};
ghost use Rattle.maker_core.specs.Thinning.{CluedGame, IsGame, IsWithout, has_clue};

use std::alloc::{AllocError, Global};

/// A puzzle with clues in cells, which can be taken away and put back.
pub trait Clued: Drop {
    /// What a search goes by. That these are rules is asked where one is made.
    type Search: Drop;

    // What the clues are, and what the puzzle means to a search.
    ghost game: { CluedGame Self };

    // What those rules mean.
    ghost meaning: { Self.Search → RuleSystem };

    // The number can be a clue.
    ghost can_be_clue: { Self → ℕ → Type 0 };

    /// How many cells it has.
    fn cells(&self) -> usize
        ensures { result ≡ game.cells self.now };

    /// Whether a cell has a clue.
    fn has_clue(&self, place: usize) -> bool
        requires { place < game.cells self.now }
        ensures { result ≡ has_clue game self.now place };

    /// Takes the clue of a cell away, and gives it.
    fn take_clue(&mut self, place: usize) -> u8
        requires { IsTrue (has_clue game self.old place) }
        ensures clue { game.clue self.old place ≡ Some result }
        ensures range { can_be_clue self.new result }
        ensures without { self.new ≡ game.without self.old place };

    /// Puts a clue that was taken away back.
    fn put_clue(&mut self, place: usize, clue: u8)
        requires range { can_be_clue self.old clue }
        requires gone { (p : Self) × IsWithout game place clue self.old p }
        ensures { (p : Self) → IsWithout game place clue self.old p → self.new ≡ p };

    /// What a search of the puzzle goes by.
    fn search(&self, alloc: Global) -> Result<Self::Search, AllocError>
        ensures { IfOk result (λ rules. meaning rules ≡ game.rules self.now) };

    /// Fewer clues lose no solution, and a search needs no more memory.
    ghost lawful: { IsGame game };
}
