//! What the rules of a search mean. These calls do nothing: their contracts are the laws.
#![tactic(auto, using(crate::proofs::LawSets::laws_laws))]

ghost use Rattle.std.specs.Prelude.{◌≡◌, ◌+◌, ◌*◌, length, if◌then◌else◌};
ghost use Rattle.solo_core.specs.Common.{Solo, IsSolo, solo_n, IsLawful, NamedHouse, houses_of, IsSoloHouse};
ghost use Rattle.solo_core.specs.Meanings.{AcceptsSoloSolutions, StrikesAsMuch, ListsItsPlaces, HousesComeFirst, AreNamedByScopes, house_visits, all_visits};
ghost use Rattle.solo_core.specs.RuleSets.{houses_rules, singles_rules, crossings_rules};
ghost use Rattle.solo_core.specs.Scopes.{scopes_of};

use crate::rule_sets::{SoloCrossings, SoloHouses, SoloSingles};
use engine_core::Rules;

/// What the rules by singles mean: those of the puzzle that they keep.
pub fn rules_of_singles(rules: &SoloSingles)
    ensures { ⟦<SoloSingles as Rules>⟧.system rules.now ≡ singles_rules rules.now.set.puzzle }
{}

/// What the rules by fillings of houses mean.
pub fn rules_of_houses(rules: &SoloHouses)
    ensures { ⟦<SoloHouses as Rules>⟧.system rules.now ≡ houses_rules rules.now.set.puzzle }
{}

/// What the rules by houses and crossings mean.
pub fn rules_of_crossings(rules: &SoloCrossings)
    ensures { ⟦<SoloCrossings as Rules>⟧.system rules.now ≡ crossings_rules rules.now.set.puzzle }
{}

/// The grids that the rules of each rule set accept are the solutions of the puzzle.
pub fn accepted_are_solutions()
    ensures houses { (p : Solo) → IsSolo p → AcceptsSoloSolutions p (houses_rules p) }
    ensures singles { (p : Solo) → IsSolo p → AcceptsSoloSolutions p (singles_rules p) }
    ensures crossings { (p : Solo) → IsSolo p → AcceptsSoloSolutions p (crossings_rules p) }
{}

/// The rules of each rule set keep to what every search relies on, for each puzzle.
pub fn rules_are_lawful()
    ensures houses { (p : Solo) → IsSolo p → IsLawful (houses_rules p) }
    ensures singles { (p : Solo) → IsSolo p → IsLawful (singles_rules p) }
    ensures crossings { (p : Solo) → IsSolo p → IsLawful (crossings_rules p) }
{}

/// The bounds of closings as numbers.
pub fn bounds_are()
    ensures many { (p : Solo) → length (houses_of p) ≡ 3 * solo_n p + (if p.x then 2 else 0) }
    ensures houses { (p : Solo) → IsSolo p → (houses_rules p).bound ≡ house_visits p }
    ensures singles { (p : Solo) → IsSolo p → (singles_rules p).bound ≡ house_visits p }
    ensures crossings { (p : Solo) → IsSolo p
        → (crossings_rules p).bound ≡ all_visits p }
{}

/// The houses' lists of places have exactly the cells of the rows, the columns, the blocks and the diagonals, of which
/// the rules speak.
pub fn houses_are_lines_and_blocks()
    ensures { (p : Solo) → IsSolo p
        → (h : NamedHouse) → IsSoloHouse p h → ListsItsPlaces p h }
{}

/// What each number names: the rule sets of singles and of houses visit the puzzle's houses, and that of crossings all
/// scopes.
pub fn scopes_are_houses_and_crossings()
    ensures singles { (p : Solo) → (singles_rules p).houses ≡ length (houses_of p) }
    ensures houses { (p : Solo) → (houses_rules p).houses ≡ length (houses_of p) }
    ensures crossings { (p : Solo) → (crossings_rules p).houses ≡ length (scopes_of p) }
    ensures first { (p : Solo) → HousesComeFirst p }
    ensures named { (p : Solo) → AreNamedByScopes p }
{}

/// What the rule set of singles strikes, that of houses strikes too.
pub fn houses_strike_what_singles_strike()
    ensures { (p : Solo) → IsSolo p → StrikesAsMuch (singles_rules p) (houses_rules p) }
{}

/// What the rule set of houses strikes, that of crossings strikes too.
pub fn crossings_strike_what_houses_strike()
    ensures { (p : Solo) → StrikesAsMuch (houses_rules p) (crossings_rules p) }
{}
