//! Game IDs of any game: a size, `:` and a description. A game says what its own are, and one
//! reader and one writer serve all.

ghost use Rattle.std.specs.Prelude.{◌≡◌, ℕ, ◌<◌, ◌+◌, ◌^◌, ◌++◌, List, Result, Err, true, length, string_bytes, IfOk, OnOk};
ghost use Rattle.gameid_core.specs.Common.{Adds, Game, Gives, HeadRead, IdFault, SizeRead, head_of, head_read, id_text, in_range, puzzle_read};

use crate::id::fault::IdFault;
use crate::id::game::Game;
use crate::id::head::{Head, SizeRead, read_head};
use crate::text::writing::push_size;
use std::alloc::{AllocError, Global};

/// A puzzle with a game ID.
pub(crate) trait IdText: Sized {
    /// Its game.
    const GAME: Game;

    ghost GAME: { Game };

    // The puzzle that a description spells behind a head, or its first fault.
    ghost behind: { HeadRead → List ℕ → Result Self IdFault };

    // What is so of each puzzle.
    ghost lawful: { Self → Type 0 };

    // The size before the colon.
    ghost size: { Self → SizeRead };

    // The written description.
    ghost text: { Self → List ℕ };

    /// Reads the description behind a head.
    fn read_description(alloc: Global, head: Head, description: &[u8]) -> Result<Self, IdFault>
        requires range { in_range GAME head.size.w head.size.h ≡ true }
        requires place { head.description + length description.now < 2 ^ 32 }
        ensures { Gives (λ p. p) result (behind (head_read head) description.now) };

    /// The size before the colon.
    fn id_size(&self) -> SizeRead
        ensures size { result ≡ size self.now }
        ensures lawful { lawful self.now };

    /// Writes the description.
    fn push_description(&self, out: &mut String) -> Result<(), AllocError>
        ensures { OnOk result (Adds (text self.now) out.old out.new) };
}

/// The puzzle that the text spells, or its first fault, as reading gives it.
#[tactic(auto, unfolding(crate::specs::IdTexts::puzzle_read))]
pub(crate) fn read_id<P: IdText>(alloc: Global, text: &[u8]) -> Result<P, IdFault>
    ensures exact { Gives (λ p. p) result (puzzle_read P.GAME P.behind text.now) }
    ensures head { (f : IdFault) → head_of P.GAME text.now ≡ Err f → result ≡ Err f }
{
    let head = read_head(P::GAME, text)?;
    P::read_description(alloc, head, &text[head.description..])
}

/// The written text of the puzzle.
pub(crate) fn write_id<P: IdText>(alloc: Global, puzzle: &P) -> Result<String, AllocError>
    ensures text { IfOk result (λ text. string_bytes text
        ≡ id_text (P.size puzzle.now) (P.text puzzle.now)) }
    ensures lawful { P.lawful puzzle.now }
{
    let mut out = String::new(alloc);
    push_size(&mut out, puzzle.id_size())?;
    out.push(':')?;
    puzzle.push_description(&mut out)?;
    Ok(out)
}
