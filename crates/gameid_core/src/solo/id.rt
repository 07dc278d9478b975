//! Game IDs of Solo.

ghost use Rattle.std.specs.Prelude.{◌≡◌, ◌<◌, ◌≤◌, ◌+◌, ◌*◌, ◌^◌, ◌∷◌, true, length, IfOk, IfErr, Ok, Err, ◌++◌, List, false, string_bytes, OnOk};
ghost use Rattle.gameid_core.specs.Common.{Adds, Fails, Gives, IdFault, IsSolo, Solo, TakesRun, begins, flat_map, head_of, is_lead, max_id, max_numbers, size_read, words};
ghost use Rattle.gameid_core.specs.SoloText.{AddsGap, IsWrittenSolo, SpellsSolo, cells_text, solo_behind, solo_cells_at, solo_of, solo_text, solo_token};
ghost use Rattle.gameid_core.specs.declared.id.game.Game.TheVariants as game;

use crate::id::fault::IdFault;
use crate::id::game::Game;
use crate::id::head::{Head, SizeRead};
use crate::id::text::{IdText, read_id, write_id};
use crate::solo::puzzle::SoloPuzzle;
use crate::text::number::leading_number;
use crate::text::runs::push_run;
use crate::text::writing::{push_letter, push_number};
use grid_core::Fixed;
use std::alloc::{AllocError, Global};

/// How many cells the first token stands for and their value, and the text after it.
fn next_run<'a>(
    n: u8,
    at: usize,
    first: u8,
    after: &'a [u8],
    rest: &'a [u8],
) -> Result<(usize, u8, &'a [u8]), IdFault>
    requires { rest.now ≡ first ∷ after.now }
    ensures { TakesRun (solo_token n at) rest.now result }
{
    if first >= b'a' && first <= b'z' {
        return Ok((usize::from(first) - 96, 0, after));
    }
    if first == b'_' {
        return Ok((0, 0, after));
    }
    if first >= b'1' && first <= b'9' {
        let (number, after) = leading_number(rest);
        if number > u32::from(n) {
            return Err(IdFault::NumberRange(at));
        }
        return Ok((1, number as u8, after));
    }
    Err(IdFault::BadByte(at))
}

/// Writes what stands before a number that has so many blanks before it.
fn push_before(out: &mut String, blanks: u8, touches: bool) -> Result<(), AllocError>
    requires { blanks ≤ 26 }
    ensures { OnOk result (AddsGap blanks touches out.old out.new) }
{
    if blanks == 0 && touches {
        out.push('_')
    } else {
        push_letter(out, blanks)
    }
}

/// Writes the cells.
#[tactic(auto, unfolding(crate::specs::SoloText::solo_tokens))]
fn push_cells(out: &mut String, givens: &[u8]) -> Result<(), AllocError>
    ensures { OnOk result (Adds (cells_text 0 false givens.now) out.old out.new) }
{
    let mut blanks = 0;
    let mut touches = false;
    for given in givens {
        if *given == 0 {
            if blanks == 26 {
                out.push('z')?;
                blanks = 0;
                touches = false;
            }
            blanks += 1;
            continue;
        }
        push_before(out, blanks, touches)?;
        push_number(out, *given)?;
        blanks = 0;
        touches = true;
    }
    push_letter(out, blanks)
}

impl IdText for SoloPuzzle {
    const GAME: Game = Game::Solo;

    ghost GAME = { game.Solo };

    ghost behind = { solo_behind };

    ghost lawful = { IsSolo };

    ghost size = { λ p. size_read p.c p.r p.x };

    ghost text = { λ p. cells_text 0 false p.givens };

    #[tactic(auto, using(crate::proofs::SoloTexts::n_few), unfolding(crate::specs::Steps::reading, crate::specs::Words::words))]
    fn read_description(alloc: Global, head: Head, description: &[u8]) -> Result<Self, IdFault> {
        let n = head.size.w * head.size.h;
        let all = usize::from(n) * usize::from(n);
        let mut givens = Vec::with_capacity(alloc, all)?;
        let mut rest = description;
        while let Some((&first, after)) = rest.split_first() {
            let at = head.description + (description.len() - rest.len());
            let (count, value, after) = next_run(n, at, first, after, rest)?;
            if count > all - givens.len() {
                return Err(IdFault::TooMany);
            }
            push_run(&mut givens, count, value)?;
            rest = after;
        }
        if givens.len() != all {
            return Err(IdFault::TooFew);
        }
        Ok(SoloPuzzle {
            c: head.size.w,
            r: head.size.h,
            x: head.size.x,
            givens: Fixed::of(givens),
        })
    }

    fn id_size(&self) -> SizeRead {
        SizeRead {
            w: self.c(),
            h: self.r(),
            x: self.x(),
        }
    }

    fn push_description(&self, out: &mut String) -> Result<(), AllocError> {
        push_cells(out, self.givens())
    }
}

/// The puzzle that the ID spells.
///
/// The description is the one that Solo of Simon Tatham's Portable Puzzle Collection writes: the
/// cells row by row from the top left, a number for a given one, `a` to `z` for 1 to 26 blank ones,
/// and `_` for none, which keeps two numbers apart. Before it stands the size, in Solo X with an
/// `x` after its two numbers.
///
/// # Errors
///
/// The ID's first fault: the tests of the part before the colon come first, in their order and on
/// the whole ID, and then the first fault that is met in the description from left to right. A
/// fault's place is the number of bytes of the ID before it. `IdFault::Memory` comes only where the
/// part before the colon has no fault: memory for all cells is taken before the first is read.
#[tactic(auto, using(crate::proofs::SoloTexts::reads_exactly))]
pub fn read_solo(alloc: Global, text: &[u8]) -> Result<SoloPuzzle, IdFault>
    // What is read is spelled so.
    ensures found { IfOk result (λ p. SpellsSolo text.now p) }
    // What is spelled so is read, unless memory runs out.
    ensures only { (p : Solo) → SpellsSolo text.now p → Gives (λ q. q) result (Ok p) }
    // Which fault it is.
    ensures fault { IfErr result (λ f. Fails f (solo_of text.now)) }
    // A fault of the first six tests comes whatever memory does.
    ensures head { (f : IdFault) → head_of Game.Solo text.now ≡ Err f → result ≡ Err f }
{
    read_id(alloc, text)
}

/// The one written ID of the puzzle, of at most `MAX_ID` bytes, which reads back to an equal
/// puzzle. Both numbers of the size are written, and the `x` of Solo X after them. In each run of
/// blank cells all letters but the last are `z`, and `_` stands exactly between two numbers.
#[tactic(auto, using(crate::proofs::SoloTexts::laws))]
pub fn write_solo(alloc: Global, puzzle: &SoloPuzzle) -> Result<String, AllocError>
    ensures text { IfOk result (λ text. string_bytes text ≡ solo_text puzzle.now) }
    ensures form { IfOk result (λ text. IsWrittenSolo (string_bytes text) puzzle.now) }
    ensures read_again { IfOk result (λ text. SpellsSolo (string_bytes text) puzzle.now) }
    ensures short { IfOk result (λ text. length (string_bytes text) ≤ max_id) }
{
    write_id(alloc, puzzle)
}
