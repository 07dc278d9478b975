//! The command `check`: the grid that the input gives, against a puzzle.
ghost use Rattle.std.specs.Prelude.{true, IfOk};
ghost use Rattle.commands.specs.Allowed.{AllowsCheck, is_read, is_spelled};
ghost use Rattle.commands.specs.CheckAnswers.{AllowsGrid, AllowsRead};
ghost use Rattle.commands.specs.Games.{game_of};
ghost use Rattle.commands.specs.Replies.{answer_in};
ghost use Rattle.commands.specs.Runs.{AreNew, Ran};
ghost use Rattle.commands.specs.Stops.{LeavesEnds, RanIfAny, status_in};

pub mod checked;

use crate::answers::check_reply::grid_refused;
use crate::answers::reply::Reply;
use crate::answers::status::{RunResult, Stop};
use crate::check::checked::Checked;
use crate::ends::output::{deliver, refuse};
use crate::ends::text::{read_whole, without_returns};
use crate::ends::{Sink, Source};
use crate::games::by_game;
use gameid_core::{Game, IdFault, read_grid};
use std::alloc::{AllocError, Global};

/// The answer to an input that was read whole, or that was too long.
fn input_reply<P: Checked>(
    alloc: Global,
    puzzle: &P,
    input: Option<Vec<u8>>,
) -> Result<Reply, AllocError>
    ensures { IfOk result (λ r. AllowsRead P.Played puzzle.now input (answer_in r)) }
{
    let Some(bytes) = input else {
        return grid_refused(alloc);
    };
    let text = without_returns(alloc, &bytes)?;
    match read_grid(alloc, puzzle, text)? {
        Some(grid) => puzzle.check_reply(alloc, &grid),
        None => grid_refused(alloc),
    }
}

/// Reads the input to its end, answers to its grid and gives the status.
#[tactic(auto, using(crate::proofs::RunLemmas::unwritten_laws))]
fn check_input<P: Checked, I: Source, O: Sink>(
    alloc: Global,
    puzzle: &P,
    input: &mut I,
    output: &mut O,
) -> RunResult
    requires { AreNew I.Source O.Sink input.old output.old }
    ensures ran { RanIfAny I.Source O.Sink (AllowsGrid P.Played puzzle.now)
        input.old input.new output.old output.new (status_in result) }
    ensures left { LeavesEnds I.Source O.Sink true input.new output.new result }
{
    let text = read_whole(alloc, input)?;
    let reply = input_reply(alloc, puzzle, text)?;
    deliver(output, &reply)
}

/// Checks the grid of the input against the puzzle of an ID, as `check_id` says.
fn check_one<P: Checked + Drop, I: Source, O: Sink>(
    alloc: Global,
    id: &[u8],
    input: &mut I,
    output: &mut O,
) -> RunResult
    requires { AreNew I.Source O.Sink input.old output.old }
    ensures ran { RanIfAny I.Source O.Sink (AllowsCheck P.Played id.now)
        input.old input.new output.old output.new (status_in result) }
    ensures left { LeavesEnds I.Source O.Sink (is_spelled P.game id.now)
        input.new output.new result }
{
    match P::read_id(alloc, id) {
        Ok(puzzle) => check_input(alloc, &puzzle, input, output),
        Err(IdFault::Memory) => Err(Stop::Memory),
        Err(fault) => refuse(alloc, fault, output),
    }
}

/// Checks the grid of the input against the puzzle of an ID, and gives the status of the run. The
/// ID is read first; where it has a fault, the input stays unread.
pub fn check_id<I: Source, O: Sink>(
    alloc: Global,
    game: Game,
    id: &[u8],
    input: &mut I,
    output: &mut O,
) -> RunResult
    requires { AreNew I.Source O.Sink input.old output.old }
    ensures ran { Ran I.Source O.Sink (AllowsCheck (game_of game) id.now)
        input.old input.new output.old output.new (status_in result) }
    ensures left { LeavesEnds I.Source O.Sink (is_read game id.now) input.new output.new result }
{
    by_game!(game, check_one::<_, I, O>(alloc, id, input, output))
}
