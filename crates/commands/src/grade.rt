//! The command `grade`: the rule sets in turn, then a search; its answer, with a trace if one is asked for.
ghost use Rattle.std.specs.Prelude.{◌≡◌, false, IfErr, IfSome, None, OnErr, OnOk, string_bytes};
ghost use Rattle.commands.specs.Common.{needs_of, FitsIn, is_settled};
ghost use Rattle.commands.specs.Games.{game_of};
ghost use Rattle.commands.specs.Grades.{SaysGrade, only_set};
ghost use Rattle.commands.specs.Allowed.{Grades, GradesId, IsGraded};
ghost use Rattle.commands.specs.PuzzleFacts.{Accepts};
ghost use Rattle.commands.specs.Stops.{LeavesSink, Says, Writes, is_broken_end};
ghost use Rattle.commands.specs.TracePieces.{AreAllNamed, BeginsTrace, HasClosedStart, PutsTrace, SaysFirst};

pub mod grades;
pub mod grading;
pub mod trace;

use crate::answers::reply::Reply;
use crate::answers::status::{RunResult, Stop};
use crate::ends::Sink;
use crate::ends::output::{deliver, refuse};
use crate::games::by_game;
use crate::grade::grades::{Grade, GradeOptions, GradedRules, grade_line};
use crate::grade::grading::is_settled_by;
use crate::grade::trace::{push_sweeps, put_visits};
use crate::solve::solvable::Solvable;
use engine_core::{Mode, Searchable, Store};
use gameid_core::{Game, IdFault};
use std::alloc::{AllocError, Global};

/// One rule set that is tried on a puzzle: its name, and the grade's options.
#[derive(Clone, Copy)]
pub struct Attempt {
    pub set: GradedRules,
    pub options: GradeOptions,
}

impl Attempt {
    /// Adds the lines of a trace to a text if one is asked for: how these rules close their start
    /// board. A queue's visits are made once more, and put in pieces. Of sweeps the search that
    /// closed that board has the number.
    fn put_trace<R: Searchable, P: Solvable, O: Sink>(
        self,
        puzzle: &P,
        rules: &R,
        store: &mut Store<R>,
        text: &mut String,
        output: &mut O,
    ) -> Result<(), Stop>
        requires fits { FitsIn (needs_of (R.system rules.now)) store.old.made }
        requires closed { HasClosedStart (R.system rules.now) store.old }
        requires named { AreAllNamed (R.system rules.now) (P.named puzzle.now) }
        requires not_failed { O.has_failed output.old ≡ false }
        ensures put { OnOk result (PutsTrace O.takes self.options.traced
            (P.game.visit_name puzzle.now) (R.system rules.now)
            output.old (string_bytes text.old) (string_bytes text.new) output.new) }
        ensures fine { OnOk result (O.has_failed output.new ≡ false) }
        ensures begun { OnErr result (BeginsTrace O.takes self.options.traced
            (P.game.visit_name puzzle.now) (R.system rules.now)
            output.old (string_bytes text.old) output.new) }
        ensures failed { IfErr result (λ stop. O.has_failed output.new ≡ is_broken_end stop) }
    {
        if !self.options.traced {
            return Ok(());
        }
        match R::MODE {
            Mode::Queue => {
                store.close(rules);
                put_visits(puzzle, store.trace(), text, output)
            }
            Mode::Sweep => {
                push_sweeps(text, store.turns())?;
                Ok(())
            }
        }
    }

    /// Says a grade and, if a trace is asked for, how these rules close their start board.
    pub fn say<R: Searchable, P: Solvable, O: Sink>(
        self,
        alloc: Global,
        grade: Grade,
        puzzle: &P,
        rules: &R,
        store: &mut Store<R>,
        output: &mut O,
    ) -> RunResult
        requires fits { FitsIn (needs_of (R.system rules.now)) store.old.made }
        requires closed { HasClosedStart (R.system rules.now) store.old }
        requires named { AreAllNamed (R.system rules.now) (P.named puzzle.now) }
        requires not_failed { O.has_failed output.old ≡ false }
        ensures answer { Writes O.Sink (SaysGrade grade self.options.traced
            (P.game.visit_name puzzle.now) (R.system rules.now)) output.old output.new result }
        ensures left { LeavesSink O.Sink output.new result }
    {
        let mut text = grade_line(alloc, grade)?;
        self.put_trace(puzzle, rules, store, &mut text, output)?;
        let status = grade.status();
        deliver(output, &Reply { text, status })
    }

    /// Says the grade of a puzzle by these rules if they settle it, as the first of the rule sets
    /// that are left. Where they don't, nothing is said.
    pub fn say_if_settled<P: Solvable, R: Searchable, O: Sink>(
        self,
        alloc: Global,
        puzzle: &P,
        rules: &R,
        output: &mut O,
    ) -> Option<RunResult>
        requires named { AreAllNamed (R.system rules.now) (P.named puzzle.now) }
        requires accepted { Accepts (R.system rules.now) (P.game.solves puzzle.now) }
        requires not_failed { O.has_failed output.old ≡ false }
        ensures said { IfSome result (SaysFirst O.Sink P.Played self (R.system rules.now)
            puzzle.now output.old output.new) }
        ensures unsettled { result ≡ None → is_settled (R.system rules.now) ≡ false }
        ensures same { result ≡ None → output.new ≡ output.old }
    {
        let Ok(mut store) = Store::new(alloc, rules) else {
            return Some(Err(Stop::Memory));
        };
        if !is_settled_by(&mut store, rules) {
            return None;
        }
        let grade = Grade::ByRules(self.set);
        Some(self.say(alloc, grade, puzzle, rules, &mut store, output))
    }

    /// Says the grade of a puzzle by these rules, the last in the list, and else by a search.
    pub fn say_by<P: Solvable, R: Searchable, O: Sink>(
        self,
        alloc: Global,
        puzzle: &P,
        rules: &R,
        output: &mut O,
    ) -> RunResult
    where
        P::Search: Searchable,
        requires means { (rules : P.Search) → P.Search.system rules ≡ P.meaning rules }
        requires named { AreAllNamed (R.system rules.now) (P.named puzzle.now) }
        requires accepted { Accepts (R.system rules.now) (P.game.solves puzzle.now) }
        requires not_failed { O.has_failed output.old ≡ false }
        ensures answer { Writes O.Sink (IsGraded P.Played (only_set self.set (R.system rules.now))
            self.options.budget self.options.traced puzzle.now) output.old output.new result }
        ensures left { LeavesSink O.Sink output.new result }
    {
        let mut store = Store::new(alloc, rules)?;
        let grade = self.grade(alloc, puzzle, rules, &mut store)?;
        self.say(alloc, grade, puzzle, rules, &mut store, output)
    }
}

/// A puzzle that can be graded.
pub trait Graded: Solvable {
    /// Says the grade, and then a trace if one is asked for. Gives the status of the run.
    fn say_grade<O: Sink>(&self, alloc: Global, options: GradeOptions, output: &mut O) -> RunResult
        requires { O.has_failed output.old ≡ false }
        ensures answer { Writes O.Sink (Grades Self.Played options self.now)
            output.old output.new result }
        ensures left { LeavesSink O.Sink output.new result };
}

/// Says the grade of an ID, or its fault.
fn grade_one<P: Graded + Drop, O: Sink>(
    alloc: Global,
    id: &[u8],
    options: GradeOptions,
    output: &mut O,
) -> RunResult
    requires { O.has_failed output.old ≡ false }
    ensures answer { Writes O.Sink (GradesId P.Played id.now options) output.old output.new result }
    ensures left { LeavesSink O.Sink output.new result }
{
    match P::read_id(alloc, id) {
        Ok(puzzle) => puzzle.say_grade(alloc, options, output),
        Err(IdFault::Memory) => Err(Stop::Memory),
        Err(fault) => refuse(alloc, fault, output),
    }
}

/// Says the grade of an ID of the game: the name of the first rule set whose closing of the start
/// board gives the solution, and else what a search with the budget says. Where a trace is asked
/// for, the closing by the last rule set that was tried follows, in pieces, so that it is never
/// held whole. It gives the status.
pub fn grade_id<O: Sink>(
    alloc: Global,
    game: Game,
    id: &[u8],
    options: GradeOptions,
    output: &mut O,
) -> RunResult
    requires { O.has_failed output.old ≡ false }
    ensures answer { Says O.Sink (GradesId (game_of game) id.now options)
        output.old output.new result }
    ensures left { LeavesSink O.Sink output.new result }
{
    by_game!(game, grade_one::<_, O>(alloc, id, options, output))
}
