//! Game IDs of Light Up.

ghost use Rattle.std.specs.Prelude.{◌≡◌, ◌<◌, ◌≤◌, ◌+◌, ◌*◌, ◌^◌, ◌∷◌, [], length, IfOk, IfErr, Ok, Err, ◌++◌, string_bytes, OnOk, IfSome, MatchOption, false};
ghost use Rattle.gameid_core.specs.Common.{Adds, AllByRecursion, Fails, Gives, GivesRun, IdFault, IsLight, IsLightCell, Light, White, head_of, max_id, max_side, size_read};
ghost use Rattle.gameid_core.specs.LightText.{IsWrittenLight, SpellsLight, light_behind, light_cells_at, light_cells_text, light_of, light_text, light_token, IsBlackByte};
ghost use Rattle.gameid_core.specs.declared.id.game.Game.TheVariants as game;

use crate::id::fault::IdFault;
use crate::id::game::Game;
use crate::id::head::{Head, SizeRead};
use crate::id::text::{IdText, read_id, write_id};
use crate::light_up::cell::LightCell;
use crate::light_up::puzzle::LightPuzzle;
use crate::text::runs::push_run;
use crate::text::writing::push_letter;
use grid_core::{Fixed, Size};
use std::alloc::{AllocError, Global};

/// How many cells a byte stands for, and their kind.
#[tactic(auto, unfolding(crate::specs::LightText::light_token))]
fn run_of(at: usize, first: u8) -> Result<(usize, LightCell), IdFault>
    ensures { GivesRun result (light_token at (first ∷ [])) }
{
    if first >= b'a' && first <= b'z' {
        return Ok((usize::from(first) - 96, LightCell::White));
    }
    if first == b'B' {
        return Ok((1, LightCell::Black));
    }
    if first >= b'0' && first <= b'4' {
        return Ok((1, LightCell::Numbered(first - b'0')));
    }
    Err(IdFault::BadByte(at))
}

/// The cells of a description, which begins at that place of the ID.
#[tactic(auto, unfolding(crate::specs::Steps::reading))]
fn cells(
    alloc: Global,
    all: usize,
    base: usize,
    description: &[u8],
) -> Result<Vec<LightCell>, IdFault>
    requires place { base + length description.now < 2 ^ 32 }
    requires all { all ≤ max_side * max_side }
    ensures { Gives (λ v. v.items) result (light_cells_at all base description.now) }
{
    let mut cells = Vec::with_capacity(alloc, all)?;
    for (k, first) in description.iter().enumerate() {
        let (count, cell) = run_of(base + k, *first)?;
        if count > all - cells.len() {
            return Err(IdFault::TooMany);
        }
        push_run(&mut cells, count, cell)?;
    }
    if cells.len() != all {
        return Err(IdFault::TooFew);
    }
    Ok(cells)
}

/// The byte of a black cell: 'B', or its number's digit.
fn black_byte(cell: LightCell) -> Option<u8>
    requires { IsLightCell cell }
    ensures byte { MatchOption result (cell ≡ White) (λ b. IsBlackByte b cell) }
    ensures ascii { IfSome result (λ b. b < 128) }
{
    match cell {
        LightCell::White => None,
        LightCell::Black => Some(b'B'),
        LightCell::Numbered(n) => Some(b'0' + n),
    }
}

/// Writes the cells.
#[tactic(auto, using(crate::proofs::LightTexts::turns), unfolding(crate::specs::LightText::light_tokens))]
fn push_cells(out: &mut String, cells: &[LightCell]) -> Result<(), AllocError>
    requires { AllByRecursion IsLightCell cells.now }
    ensures { OnOk result (Adds (light_cells_text 0 cells.now) out.old out.new) }
{
    let mut whites = 0;
    for cell in cells {
        let Some(byte) = black_byte(*cell) else {
            if whites == 26 {
                out.push('z')?;
                whites = 0;
            }
            whites += 1;
            continue;
        };
        push_letter(out, whites)?;
        out.push(byte as char)?;
        whites = 0;
    }
    push_letter(out, whites)
}

impl IdText for LightPuzzle {
    const GAME: Game = Game::LightUp;

    ghost GAME = { game.LightUp };

    ghost behind = { light_behind };

    ghost lawful = { IsLight };

    ghost size = { λ p. size_read p.size.w p.size.h false };

    ghost text = { λ p. light_cells_text 0 p.cells };

    #[tactic(auto, using(crate::proofs::LightTexts::fit))]
    fn read_description(alloc: Global, head: Head, description: &[u8]) -> Result<Self, IdFault> {
        let size = Size::new(head.size.w, head.size.h).unwrap();
        let cells = cells(alloc, size.cells(), head.description, description)?;
        Ok(LightPuzzle {
            size,
            cells: Fixed::of(cells),
        })
    }

    fn id_size(&self) -> SizeRead {
        SizeRead::of_cells(self.size())
    }

    fn push_description(&self, out: &mut String) -> Result<(), AllocError> {
        push_cells(out, self.cells())
    }
}

/// The puzzle that the ID spells.
///
/// The description is the one that Light Up of Simon Tatham's Portable Puzzle Collection writes:
/// the cells row by row from the top left, `a` to `z` for 1 to 26 white ones, `B` for a black one
/// without a number, and `0` to `4` for a numbered one.
///
/// # Errors
///
/// The ID's first fault, as [`read_solo`](crate::read_solo) tells it.
#[tactic(auto, using(crate::proofs::LightTexts::reads_exactly))]
pub fn read_lights(alloc: Global, text: &[u8]) -> Result<LightPuzzle, IdFault>
    ensures found { IfOk result (λ p. SpellsLight text.now p) }
    ensures only { (p : Light) → SpellsLight text.now p → Gives (λ q. q) result (Ok p) }
    ensures fault { IfErr result (λ f. Fails f (light_of text.now)) }
    ensures head { (f : IdFault) → head_of Game.LightUp text.now ≡ Err f → result ≡ Err f }
{
    read_id(alloc, text)
}

/// The one written ID of the puzzle, of at most `MAX_ID` bytes, which reads back to an equal
/// puzzle. Both numbers of the size are written. In each run of white cells all letters but the
/// last are `z`, and the last run is written too.
#[tactic(auto, using(crate::proofs::LightTexts::laws))]
pub fn write_lights(alloc: Global, puzzle: &LightPuzzle) -> Result<String, AllocError>
    ensures text { IfOk result (λ text. string_bytes text ≡ light_text puzzle.now) }
    ensures form { IfOk result (λ text. IsWrittenLight (string_bytes text) puzzle.now) }
    ensures read_again { IfOk result (λ text. SpellsLight (string_bytes text) puzzle.now) }
    ensures short { IfOk result (λ text. length (string_bytes text) ≤ max_id) }
{
    write_id(alloc, puzzle)
}
