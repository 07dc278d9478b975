//! The calls that the library exports. A game is a number from 0 to 3, in the order of
//! `gameid_core::Game`, and C passes a text as an address and a length. The status is that of the
//! program for the same words and input, or `TOO_SMALL`.
ghost use Rattle.std.specs.Prelude.{◌≡◌, ◌≢◌, ◌<◌, ◌≤◌, [], drop, length};
ghost use Rattle.commands.specs.Allowed.{Allows};
ghost use Rattle.puzzles_c.specs.Calls.{NeedsRoom, Tells, asks_check, asks_each, asks_generate, asks_grade, asks_solve};

use crate::asked::{game_numbered, numbers_refused};
use crate::on_bytes::{READ_LIMIT, checked, graded, solved_each};
use crate::output::{TOO_SMALL, put, put_reply};
use commands::{
    BROKEN, GradeOptions, MOST_PERCENT, NO_MEMORY, Percent, Recipe, Stores, Task, generated,
};
use maker_core::Limits;
use std::alloc::Global;

/// The verdict of a puzzle, as `solve GAME ID --budget B` says it.
#[unsafe(no_mangle)]
pub extern "C" fn puzzles_solve(
    alloc: Global,
    game: u8,
    id: &[u8],
    budget: u64,
    output: &mut [u8],
    written: &mut usize,
) -> u8
    ensures within { result ≤ TOO_SMALL }
    ensures tells { Tells (Allows (asks_solve game id.now budget) [])
        output.new written.new result }
    ensures small { NeedsRoom (Allows (asks_solve game id.now budget) [])
        output.old written.new result }
    ensures same { NO_MEMORY ≤ result → output.new ≡ output.old }
    ensures rest { drop written.new output.new ≡ drop written.new output.old }
    ensures none { NO_MEMORY ≤ result → result ≤ BROKEN → written.new ≡ 0 }
    ensures whole { result ≢ BROKEN }
{
    let reply = match game_numbered(game) {
        Some(game) => {
            let task = Task { game, budget };
            Stores::default().solve_id(alloc, task, id, String::new(alloc))
        }
        None => numbers_refused(alloc),
    };
    put_reply(&reply, output, written)
}

/// The verdicts of the puzzles whose IDs are lines, as `solve GAME --budget B` says them of its
/// input.
#[unsafe(no_mangle)]
pub extern "C" fn puzzles_solve_each(
    alloc: Global,
    game: u8,
    lines: &[u8],
    budget: u64,
    output: &mut [u8],
    written: &mut usize,
) -> u8
    ensures within { result ≤ TOO_SMALL }
    ensures tells { Tells (Allows (asks_each game budget) lines.now)
        output.new written.new result }
    ensures small { NeedsRoom (Allows (asks_each game budget) lines.now)
        output.old written.new result }
    ensures same { NO_MEMORY ≤ result → output.new ≡ output.old }
    ensures rest { drop written.new output.new ≡ drop written.new output.old }
    ensures none { NO_MEMORY ≤ result → result ≤ BROKEN → written.new ≡ 0 }
    ensures broken { result ≡ BROKEN → READ_LIMIT < length lines.now }
{
    match game_numbered(game) {
        Some(game) => {
            let (text, status) = solved_each(alloc, Task { game, budget }, lines);
            put(&text, status, output, written)
        }
        None => put_reply(&numbers_refused(alloc), output, written),
    }
}

/// What is said of a grid, as `check GAME ID` says it of its input.
#[unsafe(no_mangle)]
pub extern "C" fn puzzles_check(
    alloc: Global,
    game: u8,
    id: &[u8],
    grid: &[u8],
    output: &mut [u8],
    written: &mut usize,
) -> u8
    ensures within { result ≤ TOO_SMALL }
    ensures tells { Tells (Allows (asks_check game id.now) grid.now)
        output.new written.new result }
    ensures small { NeedsRoom (Allows (asks_check game id.now) grid.now)
        output.old written.new result }
    ensures same { NO_MEMORY ≤ result → output.new ≡ output.old }
    ensures rest { drop written.new output.new ≡ drop written.new output.old }
    ensures none { NO_MEMORY ≤ result → result ≤ BROKEN → written.new ≡ 0 }
    ensures broken { result ≡ BROKEN → READ_LIMIT < length grid.now }
{
    match game_numbered(game) {
        Some(game) => {
            let (text, status) = checked(alloc, game, id, grid);
            put(&text, status, output, written)
        }
        None => put_reply(&numbers_refused(alloc), output, written),
    }
}

/// How hard a puzzle is, as `grade GAME ID --budget B` says it, with `--trace` unless `traced` is 0.
#[unsafe(no_mangle)]
pub extern "C" fn puzzles_grade(
    alloc: Global,
    game: u8,
    id: &[u8],
    budget: u64,
    traced: u8,
    output: &mut [u8],
    written: &mut usize,
) -> u8
    ensures within { result ≤ TOO_SMALL }
    ensures tells { Tells (Allows (asks_grade game id.now budget traced) [])
        output.new written.new result }
    ensures small { NeedsRoom (Allows (asks_grade game id.now budget traced) [])
        output.old written.new result }
    ensures same { NO_MEMORY ≤ result → output.new ≡ output.old }
    ensures rest { drop written.new output.new ≡ drop written.new output.old }
    ensures none { NO_MEMORY ≤ result → result ≤ BROKEN → written.new ≡ 0 }
    ensures whole { result ≢ BROKEN }
{
    match game_numbered(game) {
        Some(game) => {
            let traced = traced != 0;
            let options = GradeOptions { budget, traced };
            let (text, status) = graded(alloc, game, id, options);
            put(&text, status, output, written)
        }
        None => put_reply(&numbers_refused(alloc), output, written),
    }
}

/// A puzzle of a seed, as `generate GAME SIZE` says it with these options. In a game without black
/// cells each percentage is as good.
#[unsafe(no_mangle)]
pub extern "C" fn puzzles_generate(
    alloc: Global,
    game: u8,
    size: &[u8],
    seed: u64,
    budget: u64,
    tries: u32,
    black: u8,
    output: &mut [u8],
    written: &mut usize,
) -> u8
    ensures within { result ≤ TOO_SMALL }
    ensures tells { Tells (Allows (asks_generate game size.now seed budget tries black) [])
        output.new written.new result }
    ensures small { NeedsRoom (Allows (asks_generate game size.now seed budget tries black) [])
        output.old written.new result }
    ensures same { NO_MEMORY ≤ result → output.new ≡ output.old }
    ensures rest { drop written.new output.new ≡ drop written.new output.old }
    ensures none { NO_MEMORY ≤ result → result ≤ BROKEN → written.new ≡ 0 }
    ensures whole { result ≢ BROKEN }
{
    let reply = match game_numbered(game) {
        Some(game) if black <= MOST_PERCENT => {
            let limits = Limits { budget, tries };
            let black = Percent { value: black };
            let recipe = Recipe {
                seed,
                limits,
                black,
            };
            generated(alloc, game, size, recipe)
        }
        _ => numbers_refused(alloc),
    };
    put_reply(&reply, output, written)
}

/// The number of this version: a hundred times the first part of its name, and the second.
#[unsafe(no_mangle)]
pub extern "C" fn puzzles_version() -> u32
    ensures { result ≡ 1 }
{
    1
}
