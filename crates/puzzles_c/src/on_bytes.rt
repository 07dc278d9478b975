//! Commands that read an input or write as they go, over bytes in memory.
ghost use Rattle.std.specs.Prelude.{◌≡◌, ◌≢◌, ◌<◌, ◌≤◌, [], None, Some, length};
ghost use Rattle.commands.specs.Allowed.{Allows};
ghost use Rattle.commands.specs.Answers.{answer_of, check, grade, solve};
ghost use Rattle.commands.specs.Stops.{status_in};

use commands::{
    BROKEN, CALL_LIMIT, CHUNK, GradeOptions, NO_MEMORY, RunResult, Stop, Task, check_id, grade_id,
    solve_lines,
};
use ends::{ReadEnd, WriteEnd};
use gameid_core::Game;
use std::alloc::Global;

/// Most bytes of an input that the reads of a run take to its end, which the last of them meets.
pub const READ_LIMIT: usize = (CALL_LIMIT as usize - 1) * CHUNK;

/// The number of a result over an input of so many bytes. No end in memory fails but for want of
/// memory, unless the input is longer than what may be read.
fn code(ended: RunResult, length: usize) -> u8
    ensures within { result ≤ BROKEN }
    ensures whole { result < NO_MEMORY → result ≡ status_in ended }
    ensures broken { result ≡ BROKEN → READ_LIMIT < length }
{
    match ended {
        Ok(status) => status.code(),
        Err(Stop::Broken) if length > READ_LIMIT => BROKEN,
        Err(_) => NO_MEMORY,
    }
}

/// What is said of a grid, with the status.
pub fn checked(alloc: Global, game: Game, id: &[u8], grid: &[u8]) -> (Vec<u8>, u8)
    ensures within { result.1 ≤ BROKEN }
    ensures whole { result.1 < NO_MEMORY
        → Allows (Some (check game id.now)) grid.now (answer_of result) }
    ensures broken { result.1 ≡ BROKEN → READ_LIMIT < length grid.now }
{
    let mut input = ReadEnd::new(grid);
    let mut output = WriteEnd::new(Vec::new(alloc));
    let ended = check_id(alloc, game, id, &mut input, &mut output);
    (output.into_inner(), code(ended, grid.len()))
}

/// The grade of a puzzle, with the status.
pub fn graded(alloc: Global, game: Game, id: &[u8], options: GradeOptions) -> (Vec<u8>, u8)
    ensures within { result.1 ≤ BROKEN }
    ensures whole { result.1 < NO_MEMORY
        → Allows (Some (grade game id.now options.budget options.traced)) []
        (answer_of result) }
    ensures unbroken { result.1 ≢ BROKEN }
{
    let mut output = WriteEnd::new(Vec::new(alloc));
    let ended = grade_id(alloc, game, id, options, &mut output);
    (output.into_inner(), code(ended, 0))
}

/// The verdicts of the puzzles whose IDs are lines, with the status.
pub fn solved_each(alloc: Global, task: Task, lines: &[u8]) -> (Vec<u8>, u8)
    ensures within { result.1 ≤ BROKEN }
    ensures whole { result.1 < NO_MEMORY
        → Allows (Some (solve task.game None task.budget)) lines.now (answer_of result) }
    ensures broken { result.1 ≡ BROKEN → READ_LIMIT < length lines.now }
{
    let mut input = ReadEnd::new(lines);
    let mut output = WriteEnd::new(Vec::new(alloc));
    let ended = solve_lines(alloc, task, &mut input, &mut output);
    (output.into_inner(), code(ended, lines.len()))
}
