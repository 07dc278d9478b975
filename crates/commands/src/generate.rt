//! The command `generate`: a puzzle of the seed, and the answer that hands it out.
ghost use Rattle.std.specs.Prelude.{◌≡◌, IfOk, string_bytes};
ghost use Rattle.commands.specs.Games.{game_of};
ghost use Rattle.commands.specs.Allowed.{AllowsMade};
ghost use Rattle.commands.specs.Makings.{exhausted_answer};
ghost use Rattle.commands.specs.Unmade.{HandsOut, wanted_in};
ghost use Rattle.gameid_core.specs.PrintedForm.{IsGridIn};
ghost use Rattle.commands.specs.Replies.{answer_in};

pub mod makable;
pub mod percent;
pub mod seed;

use crate::answers::reply::{Reply, id_refused, words_reply};
use crate::answers::status::Status;
use crate::games::by_game;
use crate::generate::makable::{Makable, Unmade};
use crate::generate::percent::Percent;
use gameid_core::{Game, Printed, push_grid};
use grid_core::Grid;
use maker_core::Limits;
use std::alloc::{AllocError, Global};

/// What a puzzle is made by: the generator's seed, how long its maker may search, and how many
/// cells are black.
#[derive(Clone, Copy)]
pub struct Recipe {
    pub seed: u64,
    pub limits: Limits,
    /// 0 for the games that have no black cells.
    pub black: Percent,
}

/// The answer that hands out a puzzle by its written ID, with its solution.
fn made_reply<P: Printed>(mut text: String, puzzle: &P, grid: &Grid) -> Result<Reply, AllocError>
    requires { IsGridIn P.Printed puzzle.now grid.now }
    ensures { IfOk result (HandsOut P.Printed (string_bytes text) puzzle.now grid.now) }
{
    text.push_str("\n")?;
    push_grid(&mut text, puzzle, grid)?;
    let status = Status::Fine;
    Ok(Reply { text, status })
}

/// The answer where no try made a puzzle with one solution.
fn exhausted_reply(alloc: Global) -> Result<Reply, AllocError>
    ensures { IfOk result (λ r. answer_in r ≡ exhausted_answer) }
{
    words_reply(String::new(alloc), "exhausted\n", Status::GaveUp)
}

/// The answer to a size of which a puzzle is to be made.
fn generate_one<P: Makable + Drop>(
    alloc: Global,
    size: &[u8],
    recipe: Recipe,
) -> Result<Reply, AllocError>
    ensures { IfOk result (λ r. AllowsMade P.Played (wanted_in recipe) size.now (answer_in r)) }
{
    match P::make(alloc, size, recipe) {
        Ok(made) => {
            let written = made.puzzle.write_id(alloc)?;
            made_reply(written, &made.puzzle, &made.answer)
        }
        Err(Unmade::Size(fault)) => id_refused(String::new(alloc), fault),
        Err(Unmade::Exhausted) => exhausted_reply(alloc),
        Err(Unmade::Memory) => Err(AllocError),
    }
}

/// The answer to a size of the game of which a puzzle is to be made.
pub fn generated(
    alloc: Global,
    game: Game,
    size: &[u8],
    recipe: Recipe,
) -> Result<Reply, AllocError>
    ensures { IfOk result
        (λ r. AllowsMade (game_of game) (wanted_in recipe) size.now (answer_in r)) }
{
    by_game!(game, generate_one::<_>(alloc, size, recipe))
}
