//! What the numbers of a call ask for.
ghost use Rattle.std.specs.Prelude.{◌≡◌, IfOk};
ghost use Rattle.commands.specs.Replies.{answer_in, refused_words};
ghost use Rattle.puzzles_c.specs.Calls.{game_by_number};

use commands::{Reply, Status, words_reply};
use gameid_core::Game;
use std::alloc::{AllocError, Global};

/// The game of a number.
pub fn game_numbered(number: u8) -> Option<Game>
    ensures { result ≡ game_by_number number }
{
    match number {
        0 => Some(Game::Solo),
        1 => Some(Game::Pattern),
        2 => Some(Game::LightUp),
        3 => Some(Game::Tents),
        _ => None,
    }
}

/// The answer to numbers that ask for nothing.
pub fn numbers_refused(alloc: Global) -> Result<Reply, AllocError>
    ensures { IfOk result (λ r. answer_in r ≡ refused_words) }
{
    words_reply(String::new(alloc), "refused: words\n", Status::Refused)
}
