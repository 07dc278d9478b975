//! What the rules of a search mean and keep to. These calls do nothing: their contracts are the laws.
#![tactic(auto, using(crate::proofs::LawSets::laws_laws))]

ghost use Rattle.fields_core.specs.Common.{AcceptsJust, IsLawful, IsLight, IsLightSolution, IsTentSolution, IsTents, Light, Tents, light_rules, tent_rules};

/// The grids that the rules of Tents accept are the solutions of the puzzle.
pub fn accepted_tents_are_solutions()
    ensures { (p : Tents) → AcceptsJust (tent_rules p) (IsTentSolution p) }
{}

/// The grids that the rules of Light Up accept are the solutions of the puzzle.
pub fn accepted_lights_are_solutions()
    ensures { (p : Light) → AcceptsJust (light_rules p) (IsLightSolution p) }
{}

/// The rules of Light Up keep to what every search relies on, for each puzzle.
pub fn rules_of_lights_are_lawful()
    ensures { (p : Light) → IsLight p → IsLawful (light_rules p) }
{}

/// The rules of Tents keep to what every search relies on, for each puzzle.
pub fn rules_of_tents_are_lawful()
    ensures { (p : Tents) → IsTents p → IsLawful (tent_rules p) }
{}
