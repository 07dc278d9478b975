//! Rule sets by their names, and grades: what they are called and what a run's status is.
ghost use Rattle.std.specs.Prelude.{◌≡◌, ◌++◌, IfOk, codes, string_bytes};
ghost use Rattle.commands.specs.Answers.{code_of};
ghost use Rattle.commands.specs.Grades.{grade_status, grade_text, rule_set_text};

use crate::answers::decimal::push_numbered;
use crate::answers::status::Status;
use std::alloc::{AllocError, Global};

/// The names of the rule sets.
#[derive(Clone, Copy)]
pub enum GradedRules {
    /// Solo, by single values and single places.
    Singles,
    /// Solo, by whole houses.
    Houses,
    /// Solo, by whole houses and by the crossings of blocks with lines.
    Crossings,
    /// Pattern.
    Lines,
    /// Light Up and Tents.
    Local,
}

impl GradedRules {
    /// The name as it is printed.
    pub fn name(self) -> &'static str
        ensures { result.now ≡ rule_set_text self }
    {
        match self {
            GradedRules::Singles => "singles",
            GradedRules::Houses => "houses",
            GradedRules::Crossings => "crossings",
            GradedRules::Lines => "lines",
            GradedRules::Local => "local",
        }
    }
}

/// The options of a grade: how many trials a search may have, and whether a trace follows.
#[derive(Clone, Copy)]
pub struct GradeOptions {
    pub budget: u64,
    pub traced: bool,
}

/// What a puzzle is graded as.
#[derive(Clone, Copy)]
pub enum Grade {
    /// The closing by this rule set alone gives the solution.
    ByRules(GradedRules),
    /// A search finds one solution, by a walk of so many trials.
    BySearch(u64),
    /// There is no solution.
    NoSolution,
    /// There are two solutions or more.
    SeveralSolutions,
    /// The search gave up.
    GaveUp,
}

impl Grade {
    /// The status of a run that tells the grade.
    pub fn status(self) -> Status
        ensures { code_of result ≡ grade_status self }
    {
        match self {
            Grade::ByRules(_) | Grade::BySearch(_) => Status::Fine,
            Grade::NoSolution => Status::Wrong,
            Grade::SeveralSolutions => Status::Several,
            Grade::GaveUp => Status::GaveUp,
        }
    }
}

/// The line that tells a grade.
pub(crate) fn grade_line(alloc: Global, grade: Grade) -> Result<String, AllocError>
    ensures { IfOk result (λ text. string_bytes text ≡ grade_text grade ++ codes "\n") }
{
    let mut text = String::new(alloc);
    match grade {
        Grade::ByRules(set) => text.push_str(set.name())?,
        Grade::BySearch(trials) => push_numbered(&mut text, "search ", trials)?,
        Grade::NoSolution => text.push_str("none")?,
        Grade::SeveralSolutions => text.push_str("several")?,
        Grade::GaveUp => text.push_str("gave up")?,
    }
    text.push_str("\n")?;
    Ok(text)
}
