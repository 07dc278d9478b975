//! Puzzles of the games that are played: how their IDs are read and written.
ghost use Rattle.std.specs.Prelude.{◌≡◌, Err, IfOk, IfErr, string_bytes};
ghost use Rattle.gameid_core.specs.Steps.{Fails};
ghost use Rattle.gameid_core.specs.declared.id.fault.IdFault.{IdFault};
ghost use Rattle.commands.specs.PuzzleFacts.{GameFacts};

use gameid_core::{IdFault, Readable};
use std::alloc::{AllocError, Global};

/// A puzzle of a game that is played.
pub trait Played: Readable + Sized {
    // What the commands know of its game.
    ghost game: { GameFacts Self };

    /// The puzzle that an ID spells.
    fn read_id(alloc: Global, id: &[u8]) -> Result<Self, IdFault>
        ensures found { IfOk result (λ p. game.spells id.now p) }
        ensures fault { IfErr result (λ f. Fails f (game.reading id.now)) }
        ensures apart { (p : Self) (f : IdFault)
            → game.spells id.now p → game.reading id.now ≡ Err f → ⊥ };

    /// The ID that is written for the puzzle.
    fn write_id(&self, alloc: Global) -> Result<String, AllocError>
        ensures text { IfOk result (λ text. string_bytes text ≡ game.written self.now) }
        ensures again { IfOk result (λ text. game.spells (string_bytes text) self.now) };
}
