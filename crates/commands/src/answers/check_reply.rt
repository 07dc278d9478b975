//! The answers of `check`.
ghost use Rattle.std.specs.Prelude.{◌≡◌, ◌≤◌, ◌++◌, Some, None, IfOk, codes, decimal};
ghost use Rattle.commands.specs.CheckAnswers.{checked, place_text};
ghost use Rattle.commands.specs.Replies.{refused, answer_in};

use crate::answers::decimal::{push_number, push_numbered};
use crate::answers::reply::{Reply, words_reply};
use crate::answers::status::Status;
use std::alloc::{AllocError, Global};

/// The answer to an input that is no grid of the puzzle.
pub fn grid_refused(alloc: Global) -> Result<Reply, AllocError>
    ensures { IfOk result (λ r. answer_in r ≡ refused (codes "grid")) }
{
    words_reply(String::new(alloc), "refused: grid\n", Status::Refused)
}

/// The answer to a solution.
pub fn correct_reply(alloc: Global) -> Result<Reply, AllocError>
    ensures { IfOk result (λ r. answer_in r ≡ checked None) }
{
    words_reply(String::new(alloc), "correct\n", Status::Fine)
}

/// The answer to a grid that breaks a rule of the whole.
pub fn wrong_reply(alloc: Global, rule: &str) -> Result<Reply, AllocError>
    ensures { IfOk result (λ r. answer_in r ≡ checked (Some rule.now)) }
{
    let mut text = String::from_str(alloc, "wrong: ")?;
    text.push_str(rule)?;
    text.push_str("\n")?;
    let status = Status::Wrong;
    Ok(Reply { text, status })
}

/// The answer to a grid that breaks a rule in a row, column, block or diagonal. The kind has a
/// space at its end.
pub fn wrong_line_reply(alloc: Global, kind: &str, line: usize) -> Result<Reply, AllocError>
    ensures { IfOk result (λ r. answer_in r ≡ checked (Some (kind.now ++ decimal line))) }
{
    let mut rule = String::new(alloc);
    push_numbered(&mut rule, kind, line)?;
    wrong_reply(alloc, rule.as_str())
}

/// The answer to a grid that breaks a rule at a place of so many columns: the place's column, a
/// comma and its row. The kind has a space at its end.
pub fn wrong_place_reply(
    alloc: Global,
    kind: &str,
    columns: usize,
    place: usize,
) -> Result<Reply, AllocError>
    requires { 1 ≤ columns }
    ensures { IfOk result
        (λ r. answer_in r ≡ checked (Some (kind.now ++ place_text columns place))) }
{
    let mut rule = String::from_str(alloc, kind)?;
    push_number(&mut rule, place % columns)?;
    rule.push_str(",")?;
    push_number(&mut rule, place / columns)?;
    wrong_reply(alloc, rule.as_str())
}
