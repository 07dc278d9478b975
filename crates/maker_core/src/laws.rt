//! What fewer clues change, and what fillings are. These calls do nothing: their contracts are the laws.

ghost use Rattle.std.specs.Prelude.{◌*◌};
ghost use Rattle.maker_core.specs.Below.{IsGrid, IsLightSolution, IsSoloSolution};
ghost use Rattle.maker_core.specs.TentMaking.{EachFilling, IsSolvedFilling};
ghost use Rattle.maker_core.specs.Thinning.{KeepsSolutions, LeavesNoIdleClue};
ghost use Rattle.maker_core.specs.SoloMaking.{solo_game};
ghost use Rattle.maker_core.specs.LightMaking.{light_game};

/// If each clue of a puzzle is a clue of another one, each solution of the other one is one of the puzzle.
#[tactic(auto, using(crate::proofs::ThinningTurns::fewer_laws))]
pub fn fewer_clues_keep_solutions()
    ensures solo { KeepsSolutions solo_game IsSoloSolution }
    ensures lights { KeepsSolutions light_game IsLightSolution }
{}

/// If each clue that was left in a puzzle is needed, the puzzle has two solutions once any of them are taken away.
pub fn needed_clues_are_not_idle()
    ensures solo { LeavesNoIdleClue solo_game }
    ensures lights { LeavesNoIdleClue light_game }
{}

/// Each filling of Tents, over any stream of 32-bit words, is a grid of trees and tents that solves its own puzzle.
#[tactic(auto, using(crate::proofs::TentsSolved::filling_at_solves))]
pub fn fillings_of_tents_are_solutions()
    ensures trees { EachFilling (λ size filling. IsGrid (size.w * size.h) 2 filling.trees) }
    ensures solved { EachFilling IsSolvedFilling }
{}
