//! What the rules of a search mean. These calls do nothing: their contracts are the laws.

ghost use Rattle.pattern_core.specs.Below.{IsLawful, IsPattern, Pattern};
ghost use Rattle.pattern_core.specs.LineRules.{line_rules};
ghost use Rattle.pattern_core.specs.Solutions.{AcceptsSolutions};

/// The grids that a search accepts are the solutions of its puzzle.
pub fn accepted_are_solutions()
    ensures { (p : Pattern) → AcceptsSolutions p (line_rules p) }
{}

/// The rules of a search keep to what every search relies on, for each puzzle.
pub fn rules_are_lawful()
    ensures { (p : Pattern) → IsPattern p → IsLawful (line_rules p) }
{}
