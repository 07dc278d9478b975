//! Grades: by rules that settle a puzzle, and by a search.
ghost use Rattle.std.specs.Prelude.{◌≡◌, true, IfOk};
ghost use Rattle.commands.specs.Common.{needs_of, FitsIn, is_settled, Solves};
ghost use Rattle.commands.specs.Grades.{HasOneSolution, IsRightGrade, searched_grade};
ghost use Rattle.commands.specs.PuzzleFacts.{Accepts};
ghost use Rattle.commands.specs.TracePieces.{HasClosedStart, IsGradeBy};

use crate::grade::Attempt;
use crate::grade::grades::Grade;
use crate::solve::solvable::Solvable;
use engine_core::{Searchable, Store, Verdict};
use std::alloc::{AllocError, Global};

/// Whether the rules alone settle their puzzle: it has exactly one solution then. That is so if a search without a trial says
/// one. Such a search closes the start board alone, and the store tells by how many visits or sweeps.
#[tactic(auto, using(crate::proofs::SearchedPuzzles::closed_at_once))]
pub fn is_settled_by<R: Searchable>(store: &mut Store<R>, rules: &R) -> bool
    requires { FitsIn (needs_of (R.system rules.now)) store.old.made }
    ensures settled { result ≡ is_settled (R.system rules.now) }
    ensures one { result ≡ true → HasOneSolution (Solves (R.system rules.now)) }
    ensures closed { HasClosedStart (R.system rules.now) store.new }
    ensures made { store.new.made ≡ store.old.made }
{
    match store.solve(rules, 0) {
        Verdict::One => true,
        Verdict::None => false,
        Verdict::Several => false,
        Verdict::GaveUp { .. } => false,
    }
}

/// The grade of a puzzle by a search.
fn searched<R: Searchable>(store: &mut Store<R>, rules: &R, budget: u64) -> Grade
    requires { FitsIn (needs_of (R.system rules.now)) store.old.made }
    ensures grade { result ≡ searched_grade (R.system rules.now) budget }
    ensures right { IsRightGrade (Solves (R.system rules.now)) result }
    ensures made { store.new.made ≡ store.old.made }
{
    match store.solve(rules, budget) {
        Verdict::None => Grade::NoSolution,
        Verdict::One => Grade::BySearch(store.trials()),
        Verdict::Several => Grade::SeveralSolutions,
        Verdict::GaveUp { .. } => Grade::GaveUp,
    }
}

/// The grade of a puzzle by a search with the rules of its game's searches.
#[tactic(auto, using(crate::proofs::GradeLemmas::right_by))]
fn search_grade<P: Solvable>(alloc: Global, puzzle: &P, budget: u64) -> Result<Grade, AllocError>
where
    P::Search: Searchable,
    requires means { (rules : P.Search) → P.Search.system rules ≡ P.meaning rules }
    ensures grade { IfOk result (λ grade. grade ≡ searched_grade (P.game.rules puzzle.now) budget) }
    ensures right { IfOk result (λ grade. IsRightGrade (P.game.solves puzzle.now) grade) }
{
    let rules = puzzle.rules(alloc)?;
    let mut store = Store::new(alloc, &rules)?;
    Ok(searched(&mut store, &rules, budget))
}

impl Attempt {
    /// The grade of a puzzle by these rules, the last in the list, and else by a search.
    pub fn grade<P: Solvable, R: Searchable>(
        self,
        alloc: Global,
        puzzle: &P,
        rules: &R,
        store: &mut Store<R>,
    ) -> Result<Grade, AllocError>
    where
        P::Search: Searchable,
        requires means { (rules : P.Search) → P.Search.system rules ≡ P.meaning rules }
        requires fits { FitsIn (needs_of (R.system rules.now)) store.old.made }
        requires accepted { Accepts (R.system rules.now) (P.game.solves puzzle.now) }
        ensures grade { IfOk result
            (IsGradeBy self (R.system rules.now) (P.game.rules puzzle.now)) }
        ensures closed { HasClosedStart (R.system rules.now) store.new }
        ensures right { IfOk result (λ grade. IsRightGrade (P.game.solves puzzle.now) grade) }
        ensures made { store.new.made ≡ store.old.made }
    {
        if is_settled_by(store, rules) {
            Ok(Grade::ByRules(self.set))
        } else {
            search_grade(alloc, puzzle, self.options.budget)
        }
    }
}
