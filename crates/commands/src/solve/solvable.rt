//! Puzzles that can be searched: the rules that a search goes by, the solutions by the game, and the
//! names of what rules visit.
ghost use Rattle.std.specs.Prelude.{◌≡◌, ◌+◌, ◌<◌, ◌≤◌, ℕ, IfOk, OnOk, string_len};
ghost use Rattle.gameid_core.specs.GridTexts.{Adds};
ghost use Rattle.gameid_core.specs.TentsText.{cells_in};
ghost use Rattle.commands.specs.Common.{RuleSystem};
ghost use Rattle.commands.specs.PuzzleFacts.{Accepts};

use crate::played::Played;
use std::alloc::{AllocError, Global};

/// Most bytes of a name: two houses, with a space between them.
pub const MAX_NAME: usize = 59;

/// A puzzle that can be searched.
pub trait Solvable: Played {
    /// What a search goes by. Where a search is made, it is asked to be `Searchable`.
    type Search: Drop;

    // What those rules mean.
    ghost meaning: { Self.Search → RuleSystem };

    // How many numbers have a name. If the rules are closed by sweeps alone, the number 0 has one,
    // which is empty.
    ghost named: { Self → ℕ };

    /// The rules of a search. The grids that they accept are the solutions by the game.
    fn rules(&self, alloc: Global) -> Result<Self::Search, AllocError>
        ensures made { IfOk result (λ rules. meaning rules ≡ Self.game.rules self.now) }
        ensures cells { (Self.game.rules self.now).cells ≡ cells_in (Self.extent self.now) }
        ensures values { (Self.game.rules self.now).values ≡ Self.value_count self.now }
        ensures solutions { Accepts (Self.game.rules self.now) (Self.game.solves self.now) };

    /// The same rules, for closings that visit each house.
    fn visited_rules(&self, alloc: Global) -> Result<Self::Search, AllocError>
        ensures made { IfOk result (λ rules. meaning rules ≡ Self.game.rules self.now) }
        ensures solutions { Accepts (Self.game.rules self.now) (Self.game.solves self.now) }
    {
        self.rules(alloc)
    }

    /// Adds the name under the number, in the order of the puzzle's rule sets.
    fn push_name(&self, number: usize, text: &mut String) -> Result<(), AllocError>
        requires { number < named self.now }
        ensures name { OnOk result (Adds (Self.game.visit_name self.now number) text.old text.new) }
        ensures short { OnOk result (string_len text.new ≤ string_len text.old + MAX_NAME) };
}
