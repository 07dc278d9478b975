//! What ties the commands to one another. These calls do nothing: their contracts are the laws.
ghost use Rattle.std.specs.Prelude.{ℕ};
ghost use Rattle.commands.specs.Common.{Game};
ghost use Rattle.commands.specs.Allowed.{AllowsSolve};
ghost use Rattle.commands.specs.Games.{game_of};
ghost use Rattle.commands.specs.Each.{HasAnswers};
ghost use Rattle.commands.specs.LawsOfCommands.{EachRequestHasAnAnswer, FixedRequestsHaveOneAnswer, SoloDiffersAtMostInGivens, LightsDifferInNumbers, CorrectMeansNeverNone, CorrectGridsAreTheOneTold, SolvedGridsPass, GradedPuzzlesHaveOne, GradesNameTheWeakest, GradesGoWithVerdicts, RuleSetsNeedNoTrial, SearchesNameLeastBudgets, LightsNeedTheirClues, MadePuzzlesAreSolved, SoloNeedsItsClues, RewritingKeepsAnswers};

/// Each text has an answer of `solve`, for each game and budget: it spells a puzzle or has a fault,
/// and the verdict of a puzzle's walk is right of its solutions.
#[tactic(auto, using(crate::proofs::GameLaws::answers))]
pub fn each_text_has_an_answer()
    ensures { (game : Game) (budget : ℕ) → HasAnswers (λ id. AllowsSolve (game_of game) id budget) }
{}

/// Each request has an answer that is allowed, on each input. So a trace that is asked for can be
/// told, since visits or sweeps close the start board of each puzzle; and of Solo and Light Up a
/// puzzle can be made, or it can be told that none is.
pub fn each_request_has_an_answer()
    ensures { EachRequestHasAnAnswer }
{}

/// A `solve`, a `check`, a `grade` without a trace, a `generate` of Pattern or Tents and words that
/// are refused have exactly one answer that is allowed, on each input. Two answers to one
/// `generate` of Solo or Light Up differ only in which clues are left. In Solo the size and the grid
/// are the same, in Light Up the size, the black cells and the bulbs.
pub fn one_answer()
    ensures fixed { FixedRequestsHaveOneAnswer }
    ensures solo { SoloDiffersAtMostInGivens }
    ensures lights { LightsDifferInNumbers }
{}

/// Where `solve` tells one grid or two, or gives up with one, `check` of the ID finds each of them
/// correct, as it was printed, and nothing else is allowed. Where `check` finds an input correct, `solve` never tells
/// of the ID that it has no solution, whatever the budget; and where it tells of one, the input is
/// its printed form, but for its line ends.
pub fn solved_grids_pass()
    ensures pass { SolvedGridsPass }
    ensures some { CorrectMeansNeverNone }
    ensures same { CorrectGridsAreTheOneTold }
{}

/// With the same budget `grade` and `solve` both tell of no solution, both of several, or both
/// refuse the ID; and where `grade` gives up, so does `solve`. Where a grade names a rule set or a
/// search, some budget is enough for `solve` to tell the one solution. A search is named by the
/// least such budget, if that is within the grade's own. A grade names a rule set that strikes no
/// more than the search's rules exactly where `solve` without a trial tells the one solution.
pub fn grades_agree()
    ensures statuses { GradesGoWithVerdicts }
    ensures enough { GradedPuzzlesHaveOne }
    ensures least { SearchesNameLeastBudgets }
    ensures rule_sets { RuleSetsNeedNoTrial }
{}

/// What a rule set of a game's list settles, each later one settles too. A grade is by the first that
/// settles the puzzle. So it names the weakest.
pub fn grades_name_the_weakest()
    ensures { GradesNameTheWeakest }
{}

/// A made puzzle is solved: its ID is read; with the budget that it was made with, `solve` tells of
/// it the grid that was handed out with it, and nothing else is allowed; and `check` finds that
/// grid correct. Without a clue that is marked as needed, `solve` never tells of one solution.
pub fn made_puzzles_are_solved()
    ensures solved { MadePuzzlesAreSolved }
    ensures solo { SoloNeedsItsClues }
    ensures lights { LightsNeedTheirClues }
{}

/// The ID that is written for what an ID spells is read as the same puzzle, and each command that
/// names an ID answers the same to the two.
pub fn rewritten_ids_are_the_same()
    ensures { RewritingKeepsAnswers }
{}
