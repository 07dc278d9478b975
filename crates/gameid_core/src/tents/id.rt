//! Game IDs of Tents.

ghost use Rattle.std.specs.Prelude.{◌≡◌, [], ℕ, List, ◌<◌, ◌≤◌, ◌+◌, ◌^◌, ◌++◌, ◌∷◌, length, OnOk, IfOk, IfErr, Ok, Err, decimal, string_bytes, false};
ghost use Rattle.gameid_core.specs.Common.{Adds, Fails, Gives, IdFault, IsTents, TakesNumber, Tents, flat_map, head_of, max_id, size_read};
ghost use Rattle.gameid_core.specs.TentsText.{AddsBlank, IsWrittenTents, SpellsTents, at_tents, blanks_and_tree, run_cells, tents_at, tents_behind, tents_count, tents_of, tents_run, tents_text, tents_token_byte, tents_tree, trees_text};
ghost use Rattle.gameid_core.specs.declared.id.game.Game.TheVariants as game;

use crate::id::fault::IdFault;
use crate::id::game::Game;
use crate::id::head::{Head, SizeRead};
use crate::id::text::{IdText, read_id, write_id};
use crate::tents::puzzle::TentsPuzzle;
use crate::text::number::{leading_number, starts_with_digit};
use crate::text::runs::push_run;
use crate::text::writing::push_number;
use grid_core::{Fixed, Size, line_count, line_len};
use std::alloc::{AllocError, Global};

/// Adds so many blanks, and a tree if it is told to.
fn push_places(places: &mut Vec<u8>, blanks: usize, tree: bool) -> Result<(), AllocError>
    ensures { OnOk result (places.new.items ≡ places.old.items ++ run_cells blanks tree) }
{
    push_run(places, blanks, 0)?;
    if tree {
        places.push(1)?;
    }
    Ok(())
}

/// How many blanks a byte of the trees stands for, and whether a tree follows them.
#[tactic(auto, unfolding(crate::specs::TentsText::tents_run))]
fn run_of(at: usize, first: u8) -> Result<(usize, bool), IdFault>
    ensures exact { result ≡ tents_run at first }
    ensures small { IfOk result (λ run. run.0 ≤ 25) }
{
    if first == b'_' {
        return Ok((0, true));
    }
    if first >= b'a' && first <= b'y' {
        return Ok((usize::from(first) - 96, true));
    }
    if first == b'z' {
        return Ok((25, false));
    }
    Err(IdFault::BadByte(at))
}

/// Adds the places that a byte of the trees stands for.
#[tactic(auto, using(crate::proofs::TentsTexts::run_length), unfolding(crate::specs::TentsText::tents_tree))]
fn take_places(size: Size, at: usize, first: u8, places: &mut Vec<u8>) -> Result<(), IdFault>
    ensures { Gives (λ done. at_tents places.new.items []) result
        (tents_tree size at (at_tents places.old.items []) first) }
{
    let (blanks, tree) = run_of(at, first)?;
    let more = blanks + usize::from(tree);
    if places.len() + more > size.cells() + usize::from(tree) {
        return Err(IdFault::TooMany);
    }
    push_places(places, blanks, tree)?;
    Ok(())
}

/// The number of the next line, behind a ',', and the text after it.
fn count_at<'a>(
    size: Size,
    at: usize,
    places: &[u8],
    counts: &[u8],
    after: &'a [u8],
) -> Result<(u8, &'a [u8]), IdFault>
    requires { at < 2 ^ 32 }
    ensures { TakesNumber (tents_count size at (at_tents places.now counts.now)) (44 ∷ after.now)
        result }
{
    if places.len() <= size.cells() {
        return Err(IdFault::TooFew);
    }
    if counts.len() == line_count(size) {
        return Err(IdFault::TooMany);
    }
    if !starts_with_digit(after) {
        return Err(IdFault::BadByte(at));
    }
    let (number, rest) = leading_number(after);
    if number as usize > line_len(size, counts.len()) {
        return Err(IdFault::NumberRange(at + 1));
    }
    Ok((number as u8, rest))
}

/// The places and counts of a description, which begins at that place of the ID.
#[tactic(auto, using(crate::proofs::TentsTexts::turns), unfolding(crate::specs::Steps::reading))]
fn parts(
    alloc: Global,
    size: Size,
    base: usize,
    description: &[u8],
) -> Result<(Vec<u8>, Vec<u8>), IdFault>
    requires { base + length description.now < 2 ^ 32 }
    ensures { Gives (λ x. at_tents x.0.items x.1.items) result
        (tents_at size base description.now) }
{
    let lines = line_count(size);
    let mut places = Vec::with_capacity(alloc, size.cells() + 1)?;
    let mut counts = Vec::with_capacity(alloc, lines)?;
    let mut rest = description;
    while let Some((&first, after)) = rest.split_first() {
        let at = base + (description.len() - rest.len());
        if first == b',' {
            let (count, after) = count_at(size, at, &places, &counts, after)?;
            counts.push(count)?;
            rest = after;
        } else if counts.is_empty() {
            take_places(size, at, first, &mut places)?;
            rest = after;
        } else {
            return Err(IdFault::BadByte(at));
        }
    }
    if counts.len() != lines {
        return Err(IdFault::TooFew);
    }
    Ok((places, counts))
}

/// The byte of a tree with so many blanks before it.
fn tree_byte(blanks: u8) -> u8
    requires { blanks ≤ 25 }
    ensures byte { result ≡ tents_token_byte (blanks_and_tree blanks) }
    ensures ascii { result < 128 }
{
    if blanks == 0 { b'_' } else { 96 + blanks }
}

/// Counts one blank more, and writes 'z' in place of 25 where there are 26.
#[tactic(auto, unfolding(crate::specs::TentsText::tents_tokens))]
fn push_blank(out: &mut String, blanks: u8) -> Result<u8, AllocError>
    requires { blanks ≤ 25 }
    ensures few { IfOk result (λ k. k ≤ 25) }
    ensures text { IfOk result (λ k. AddsBlank blanks k out.old out.new) }
{
    if blanks == 25 {
        out.push('z')?;
        Ok(1)
    } else {
        Ok(blanks + 1)
    }
}

/// Writes the trees, and the tree after the cells.
#[tactic(auto, unfolding(crate::specs::TentsText::tents_tokens))]
fn push_trees(out: &mut String, trees: &[u8]) -> Result<(), AllocError>
    ensures { OnOk result (Adds (trees_text 0 trees.now) out.old out.new) }
{
    let mut blanks = 0;
    for tree in trees {
        if *tree == 0 {
            blanks = push_blank(out, blanks)?;
            continue;
        }
        out.push(tree_byte(blanks) as char)?;
        blanks = 0;
    }
    out.push(tree_byte(blanks) as char)?;
    Ok(())
}

/// Writes each line's number of tents, with ',' before it.
fn push_counts(out: &mut String, counts: &[u8]) -> Result<(), AllocError>
    ensures { OnOk result (Adds (flat_map (λ n. 44 ∷ decimal n) counts.now) out.old out.new) }
{
    for count in counts {
        out.push(',')?;
        push_number(out, *count)?;
    }
    Ok(())
}

impl IdText for TentsPuzzle {
    const GAME: Game = Game::Tents;

    ghost GAME = { game.Tents };

    ghost behind = { tents_behind };

    ghost lawful = { IsTents };

    ghost size = { λ p. size_read p.size.w p.size.h false };

    ghost text = { λ p. trees_text 0 p.trees ++ flat_map (λ n. 44 ∷ decimal n) p.counts };

    #[tactic(auto, using(crate::proofs::TentsTexts::fit))]
    fn read_description(alloc: Global, head: Head, description: &[u8]) -> Result<Self, IdFault> {
        let size = Size::new(head.size.w, head.size.h).unwrap();
        let (mut places, counts) = parts(alloc, size, head.description, description)?;
        places.truncate(size.cells());
        Ok(TentsPuzzle {
            size,
            trees: Fixed::of(places),
            counts: Fixed::of(counts),
        })
    }

    fn id_size(&self) -> SizeRead {
        SizeRead::of_cells(self.size())
    }

    fn push_description(&self, out: &mut String) -> Result<(), AllocError> {
        push_trees(out, self.trees())?;
        push_counts(out, self.counts())
    }
}

/// The puzzle that the ID spells.
///
/// The description is the one that Tents of Simon Tatham's Portable Puzzle Collection writes: the
/// cells row by row from the top left and one tree after them, `_` for a tree, `a` to `y` for 1 to
/// 25 blank cells and a tree, and `z` for 25 blank cells and no tree; and then, for each column
/// from the left and each row from the top, a `,` and the number of its tents.
///
/// # Errors
///
/// The ID's first fault, as [`read_solo`](crate::read_solo) tells it.
#[tactic(auto, using(crate::proofs::TentsTexts::reads_exactly))]
pub fn read_tents(alloc: Global, text: &[u8]) -> Result<TentsPuzzle, IdFault>
    ensures found { IfOk result (λ p. SpellsTents text.now p) }
    ensures only { (p : Tents) → SpellsTents text.now p → Gives (λ q. q) result (Ok p) }
    ensures fault { IfErr result (λ f. Fails f (tents_of text.now)) }
    ensures head { (f : IdFault) → head_of Game.Tents text.now ≡ Err f → result ≡ Err f }
{
    read_id(alloc, text)
}

/// The one written ID of the puzzle, of at most `MAX_ID` bytes, which reads back to an equal
/// puzzle. Both numbers of the size are written, no `z` stands before `_`, and no number has a
/// leading zero.
#[tactic(auto, using(crate::proofs::TentsWritten::laws))]
pub fn write_tents(alloc: Global, puzzle: &TentsPuzzle) -> Result<String, AllocError>
    ensures text { IfOk result (λ text. string_bytes text ≡ tents_text puzzle.now) }
    ensures form { IfOk result (λ text. IsWrittenTents (string_bytes text) puzzle.now) }
    ensures read_again { IfOk result (λ text. SpellsTents (string_bytes text) puzzle.now) }
    ensures short { IfOk result (λ text. length (string_bytes text) ≤ max_id) }
{
    write_id(alloc, puzzle)
}
