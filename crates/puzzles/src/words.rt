//! What the words of a command line ask for.
#![tactic(auto, using(crate::proofs::WordLemmas::word_laws))]

ghost use Rattle.puzzles.specs.Requests.{number_in, number_or, asked_in, game_in, budget_in, solve_in, check_in, trace_in, grade_in, seed_in, tries_in, black_in, generate_in, asked_by_rows, asked_of, lent};
ghost use Rattle.std.specs.Prelude.{◌≡◌, ◌≤◌, IfSome, IfOk, option_map, map, string_bytes};
ghost use Rattle.clap.specs.Walk.{first_of, rows_of};
ghost use Rattle.clap.specs.Simple.{subcommand_rows_of};
ghost use Rattle.clap.specs.Matches.{found_of};

use crate::command_line::puzzles_command;
use clap::ArgMatches;
use clap::error::ErrorKind;
use commands::{GradeOptions, MOST_PERCENT, Percent, Recipe, Task, game_named, usual_black};
use gameid_core::Game;
use maker_core::Limits;
use std::alloc::{AllocError, Global};

/// The budget where the words name none.
pub const BUDGET: u64 = 100_000;

/// The tries where the words name none.
pub const TRIES: u32 = 1_000;

/// What the words ask for.
#[derive(Drop)]
pub enum Request<'a> {
    /// Without an ID the lines of the input are IDs.
    Solve {
        task: Task,
        id: Option<&'a str>,
    },
    /// The grid is the input.
    Check {
        game: Game,
        id: &'a str,
    },
    Grade {
        game: Game,
        id: &'a str,
        options: GradeOptions,
    },
    Generate {
        game: Game,
        size: &'a str,
        recipe: Recipe,
    },
}

/// A number in decimal digits, up to a limit.
fn number(text: &str, most: u64) -> Option<u64>
    ensures value { result ≡ number_in most text.now }
    ensures within { IfSome result (λ n. n ≤ most) }
{
    let bytes = text.as_bytes();
    if bytes.is_empty() || bytes[0] == b'+' {
        return None;
    }
    match text.parse::<u64>() {
        Ok(value) if value <= most => Some(value),
        _ => None,
    }
}

/// The number of a text as `number` gives it, or another one where there is no text.
fn number_or(text: Option<&str>, most: u64, otherwise: u64) -> Option<u64>
    requires { otherwise ≤ most }
    ensures value { result ≡ number_or otherwise most (lent text.entry) }
    ensures within { IfSome result (λ n. n ≤ most) }
{
    match text {
        Some(text) => number(text, most),
        None => Some(otherwise),
    }
}

/// What the words after `solve` ask for.
fn solve_request<'a>(matches: &ArgMatches<'a>) -> Option<Request<'a>>
    ensures { option_map asked_in result ≡ solve_in (rows_of (found_of matches.now)) }
{
    let game = game_named(matches.get_str("game")?)?;
    let budget = number_or(matches.get_str("budget"), u64::MAX, BUDGET)?;
    let id = matches.get_str("id");
    let task = Task { game, budget };
    Some(Request::Solve { task, id })
}

/// What the words after `check` ask for.
fn check_request<'a>(matches: &ArgMatches<'a>) -> Option<Request<'a>>
    ensures { option_map asked_in result ≡ check_in (rows_of (found_of matches.now)) }
{
    let game = game_named(matches.get_str("game")?)?;
    let id = matches.get_str("id")?;
    Some(Request::Check { game, id })
}

/// Whether a trace is asked for.
fn trace_from<'a>(matches: &ArgMatches<'a>) -> bool
    ensures { result ≡ trace_in (rows_of (found_of matches.now)) }
{
    match matches.get_str("trace") {
        Some(text) => text == "true",
        None => false,
    }
}

/// What the words after `grade` ask for.
fn grade_request<'a>(matches: &ArgMatches<'a>) -> Option<Request<'a>>
    ensures { option_map asked_in result ≡ grade_in (rows_of (found_of matches.now)) }
{
    let game = game_named(matches.get_str("game")?)?;
    let id = matches.get_str("id")?;
    let budget = number_or(matches.get_str("budget"), u64::MAX, BUDGET)?;
    let traced = trace_from(matches);
    let options = GradeOptions { budget, traced };
    Some(Request::Grade { game, id, options })
}

/// The seed that the words name.
fn seed_from<'a>(matches: &ArgMatches<'a>) -> Option<u64>
    ensures { result ≡ seed_in (rows_of (found_of matches.now)) }
{
    number(matches.get_str("seed")?, u64::MAX)
}

/// The tries that the words name, or the usual number of them.
fn tries_from<'a>(matches: &ArgMatches<'a>) -> Option<u32>
    ensures { result ≡ tries_in (rows_of (found_of matches.now)) }
{
    let tries = number_or(matches.get_str("tries"), u32::MAX as u64, TRIES as u64)?;
    Some(tries as u32)
}

/// A percentage, or another where the words name none.
fn percent_or(text: Option<&str>, otherwise: Percent) -> Option<Percent>
    ensures { option_map (λ p. p.value) result ≡ number_or otherwise.value 100 (lent text.entry) }
{
    let most = u64::from(MOST_PERCENT);
    let value = number_or(text, most, u64::from(otherwise.value))? as u8;
    Some(Percent { value })
}

/// The percentage of black cells, which the words name only in a game that has some.
fn black_from<'a>(game: Game, matches: &ArgMatches<'a>) -> Option<Percent>
    ensures { option_map (λ p. p.value) result ≡ black_in game (rows_of (found_of matches.now)) }
{
    let text = matches.get_str("black");
    match (usual_black(game), text) {
        (Some(usual), _) => percent_or(text, usual),
        (None, None) => Some(Percent { value: 0 }),
        (None, Some(_)) => None,
    }
}

/// What the words after `generate` ask for.
fn generate_request<'a>(matches: &ArgMatches<'a>) -> Option<Request<'a>>
    ensures { option_map asked_in result ≡ generate_in (rows_of (found_of matches.now)) }
{
    let game = game_named(matches.get_str("game")?)?;
    let size = matches.get_str("size")?;
    let seed = seed_from(matches)?;
    let budget = number_or(matches.get_str("budget"), u64::MAX, BUDGET)?;
    let tries = tries_from(matches)?;
    let black = black_from(game, matches)?;
    let limits = Limits { budget, tries };
    let recipe = Recipe {
        seed,
        limits,
        black,
    };
    Some(Request::Generate { game, size, recipe })
}

/// What the command and the words after it ask for.
fn request_in<'a>(matches: &ArgMatches<'a>) -> Option<Request<'a>>
    ensures { option_map asked_in result ≡ asked_by_rows (subcommand_rows_of matches.now) }
{
    let (name, found) = matches.subcommand()?;
    match name {
        "solve" => solve_request(found),
        "check" => check_request(found),
        "grade" => grade_request(found),
        "generate" => generate_request(found),
        _ => None,
    }
}

/// What the words ask for, or nothing where they are refused. The words are those after the
/// program's name.
pub fn read_words<'a>(alloc: Global, words: &'a [String]) -> Result<Option<Request<'a>>, AllocError>
    ensures { IfOk result
        (λ r. option_map asked_in r ≡ asked_of (map string_bytes words.entry.now)) }
{
    let command = puzzles_command(alloc)?;
    match command.try_get_matches_from(words) {
        Ok(matches) => Ok(request_in(&matches)),
        Err(error) => match error.kind() {
            ErrorKind::OutOfMemory => Err(AllocError),
            _ => Ok(None),
        },
    }
}
