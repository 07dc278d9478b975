//! Game IDs of Pattern.

ghost use Rattle.std.specs.Prelude.{◌≡◌, ◌<◌, ◌≤◌, ◌+◌, ◌^◌, ◌∷◌, length, IfOk, IfErr, Ok, Err, if◌then◌else◌, ◌++◌, map, string_bytes, OnOk, false};
ghost use Rattle.gameid_core.specs.Common.{Adds, BadByte, Fails, Gives, IdFault, TakesNumber, after_digits, begins, digits_front, head_of, is_ascii_digit, join_with_byte, max_id, size_read};
ghost use Rattle.gameid_core.specs.PatternText.{GivesDigits, IsWrittenPattern, SpellsPattern, clue_number, clue_text, clues_at, pattern_behind, pattern_of, pattern_text, token_after};
ghost use Rattle.gameid_core.specs.Puzzles.{IsPattern, Pattern, used as used_cells};
ghost use Rattle.gameid_core.specs.declared.id.game.Game.TheVariants as game;

use crate::id::fault::IdFault;
use crate::id::game::Game;
use crate::id::head::{Head, SizeRead};
use crate::id::text::{IdText, read_id, write_id};
use crate::pattern::clues::Clues;
use crate::pattern::puzzle::PatternPuzzle;
use crate::text::number::{leading_number, starts_with_digit};
use crate::text::writing::push_number;
use grid_core::{Size, line_count, line_len};
use std::alloc::{AllocError, Global};

/// The cells of a line, the clues as far as they are read, and the cells that the numbers of its
/// clue use so far, with a gap behind each.
#[derive(Drop)]
struct LineSoFar<'a> {
    cells: u8,
    clues: &'a Clues,
    before: u32,
}

/// The number whose digits stand in front of the text, and the text after it. The number's token
/// and the digits begin at these places.
#[tactic(auto, unfolding(crate::specs::PatternText::clue_number))]
fn number<'a>(
    line: &LineSoFar<'_>,
    token: usize,
    at: usize,
    digits: &'a [u8],
) -> Result<(u8, &'a [u8]), IdFault>
    requires { line.now.before ≤ 1000 }
    ensures { GivesDigits (clue_number line.now.cells (length line.now.clues.now.clues)
        line.now.before at (digits_front digits.now)) digits.now token result }
{
    let (number, rest) = leading_number(digits);
    if number == 0 && !starts_with_digit(digits) {
        return Err(IdFault::BadByte(token));
    }
    if number == 0 {
        return Err(IdFault::NumberRange(at));
    }
    if line.before + number > u32::from(line.cells) {
        return Err(IdFault::LineTooFull(line.clues.len()));
    }
    Ok((number as u8, rest))
}

/// The number that comes next in a clue, and the text after it: a further number stands behind '.'.
#[tactic(auto, using(crate::proofs::PatternTexts::numbers))]
fn next_number<'a>(
    line: &LineSoFar<'_>,
    at: usize,
    first: u8,
    after: &'a [u8],
    rest: &'a [u8],
) -> Result<(u8, &'a [u8]), IdFault>
    requires text { rest.now ≡ first ∷ after.now }
    requires used { line.now.before ≡ used_cells line.now.clues.now.clue }
    requires small { line.now.before ≤ 1000 }
    requires place { at < 2 ^ 32 }
    ensures { TakesNumber (token_after line.now.cells line.now.clues.now at) rest.now result }
{
    if line.before == 0 {
        return number(line, at, at, rest);
    }
    if first != b'.' {
        return Err(IdFault::BadByte(at));
    }
    number(line, at, at + 1, after)
}

/// The clues of a description, which begins at that place of the ID.
#[tactic(auto, using(crate::proofs::PatternTexts::turns), unfolding(crate::specs::Steps::reading))]
fn clues(alloc: Global, size: Size, base: usize, description: &[u8]) -> Result<Clues, IdFault>
    requires { base + length description.now < 2 ^ 32 }
    ensures { Gives (λ c. c.clues) result (clues_at size base description.now) }
{
    let lines = line_count(size);
    let mut clues = Clues::new(alloc, lines, description.len().div_ceil(2))?;
    let mut before = 0;
    let mut rest = description;
    while let Some((&first, after)) = rest.split_first() {
        if first == b'/' {
            if clues.len() + 1 == lines {
                return Err(IdFault::TooMany);
            }
            clues.end()?;
            before = 0;
            rest = after;
        } else {
            let at = base + (description.len() - rest.len());
            let line = LineSoFar {
                cells: line_len(size, clues.len()) as u8,
                clues: &clues,
                before,
            };
            let (number, after) = next_number(&line, at, first, after, rest)?;
            clues.push(number)?;
            before += u32::from(number) + 1;
            rest = after;
        }
    }
    if clues.len() + 1 != lines {
        return Err(IdFault::TooFew);
    }
    clues.end()?;
    Ok(clues)
}

/// Writes a clue's numbers with '.' between them.
#[tactic(auto, using(crate::proofs::LineLaws::joins))]
fn push_clue(out: &mut String, clue: &[u8]) -> Result<(), AllocError>
    ensures { OnOk result (Adds (clue_text clue.now) out.old out.new) }
{
    for (k, n) in clue.iter().enumerate() {
        if k > 0 {
            out.push('.')?;
        }
        push_number(out, *n)?;
    }
    Ok(())
}

/// Writes the clues with '/' between them.
#[tactic(auto, using(crate::proofs::LineLaws::joins))]
fn push_clues(out: &mut String, puzzle: &PatternPuzzle) -> Result<(), AllocError>
    ensures { OnOk result
        (Adds (join_with_byte 47 (map clue_text puzzle.now.clues)) out.old out.new) }
{
    for line in 0..puzzle.lines() {
        if line > 0 {
            out.push('/')?;
        }
        push_clue(out, puzzle.line(line))?;
    }
    Ok(())
}

impl IdText for PatternPuzzle {
    const GAME: Game = Game::Pattern;

    ghost GAME = { game.Pattern };

    ghost behind = { pattern_behind };

    ghost lawful = { IsPattern };

    ghost size = { λ p. size_read p.size.w p.size.h false };

    ghost text = { λ p. join_with_byte 47 (map clue_text p.clues) };

    fn read_description(alloc: Global, head: Head, description: &[u8]) -> Result<Self, IdFault> {
        let size = Size::new(head.size.w, head.size.h).unwrap();
        let clues = clues(alloc, size, head.description, description)?;
        Ok(PatternPuzzle { size, clues })
    }

    fn id_size(&self) -> SizeRead {
        SizeRead::of_cells(self.size())
    }

    fn push_description(&self, out: &mut String) -> Result<(), AllocError> {
        push_clues(out, self)
    }
}

/// The puzzle that the ID spells.
///
/// The description is the one that Pattern of Simon Tatham's Portable Puzzle Collection writes: a
/// clue for each column from the left and then for each row from the top, with `/` between two
/// clues; a clue is empty, or the lengths of the line's black runs with `.` between two of them.
///
/// # Errors
///
/// The ID's first fault, as [`read_solo`](crate::read_solo) tells it.
#[tactic(auto, using(crate::proofs::PatternTexts::reads_exactly))]
pub fn read_pattern(alloc: Global, text: &[u8]) -> Result<PatternPuzzle, IdFault>
    ensures found { IfOk result (λ p. SpellsPattern text.now p) }
    ensures only { (p : Pattern) → SpellsPattern text.now p → Gives (λ q. q) result (Ok p) }
    ensures fault { IfErr result (λ f. Fails f (pattern_of text.now)) }
    ensures head { (f : IdFault) → head_of Game.Pattern text.now ≡ Err f → result ≡ Err f }
{
    read_id(alloc, text)
}

/// The one written ID of the puzzle, of at most `MAX_ID` bytes, which reads back to an equal
/// puzzle. Both numbers of the size are written, and no number has a leading zero.
#[tactic(auto, using(crate::proofs::PatternWritten::laws))]
pub fn write_pattern(alloc: Global, puzzle: &PatternPuzzle) -> Result<String, AllocError>
    ensures text { IfOk result (λ text. string_bytes text ≡ pattern_text puzzle.now) }
    ensures form { IfOk result (λ text. IsWrittenPattern (string_bytes text) puzzle.now) }
    ensures read_again { IfOk result (λ text. SpellsPattern (string_bytes text) puzzle.now) }
    ensures short { IfOk result (λ text. length (string_bytes text) ≤ max_id) }
{
    write_id(alloc, puzzle)
}
