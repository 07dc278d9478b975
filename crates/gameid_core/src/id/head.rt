//! The part of an ID before its colon.

ghost use Rattle.std.specs.Prelude.{◌≡◌, ◌==◌, position, ◌≤◌, drop, length, true, false, if◌then◌else◌, Ok, Err, IfOk, IfErr};
ghost use Rattle.gameid_core.specs.Common.{has_x, head_at, head_of, head_read, in_range, side_at, sides_at, size_of, size_read};
ghost use Rattle.gameid_core.specs.Head.{GivesSide, GivesSides};

use crate::id::fault::IdFault;
use crate::id::game::Game;
use crate::text::number::leading_number;
use grid_core::{MAX_SIDE, Size};

/// The most bytes of an ID.
pub const MAX_ID: usize = 65_536;

/// The most numbers of a game of Solo.
pub const MAX_NUMBERS: u32 = 31;

/// A size, and the text after it: both sides, each 1000 where it is larger, and whether the `x` of
/// Solo X stands after them.
#[derive(Clone, Copy, Debug)]
struct SidesRead<'a> {
    w: u32,
    h: u32,
    x: bool,
    rest: &'a [u8],
}

/// A size: columns and rows, in Solo of sub-blocks, and whether the `x` of Solo X stands after
/// them, which says that both main diagonals, too, hold every number once.
#[derive(Clone, Copy, Debug, PartialEq, Eq)]
pub struct SizeRead {
    pub w: u8,
    pub h: u8,
    pub x: bool,
}

impl SizeRead {
    /// The size of a grid, in each game but Solo.
    pub(crate) fn of_cells(size: Size) -> SizeRead
        ensures { result ≡ size_read size.w size.h false }
    {
        SizeRead {
            w: size.w(),
            h: size.h(),
            x: false,
        }
    }
}

/// The size before the colon, and the place where the description begins.
#[derive(Clone, Copy, Debug)]
pub(crate) struct Head {
    pub(crate) size: SizeRead,
    pub(crate) description: usize,
}

/// A side of a size, or 1000 where it is larger, and the text after it.
#[tactic(auto, unfolding(crate::specs::Head::side_at))]
fn side(text: &[u8]) -> Result<(u32, &[u8]), IdFault>
    ensures { GivesSide result (side_at text.now) }
{
    match text {
        [b'1'..=b'9', ..] => Ok(leading_number(text)),
        _ => Err(IdFault::BadSize),
    }
}

/// The size that the text begins with.
#[tactic(auto, unfolding(crate::specs::Head::sides_at))]
fn sides(game: Game, text: &[u8]) -> Result<SidesRead<'_>, IdFault>
    ensures { GivesSides result (sides_at game text.now) }
{
    let (w, rest) = side(text)?;
    match rest {
        [b'x', rest @ ..] => {
            let (h, after) = side(rest)?;
            let (x, rest) = match (game, after) {
                (Game::Solo, [b'x', rest @ ..]) => (true, rest),
                _ => (false, after),
            };
            Ok(SidesRead { w, h, x, rest })
        }
        _ => Ok(SidesRead {
            w,
            h: w,
            x: false,
            rest,
        }),
    }
}

/// The size that the whole text is, in the form of Simon Tatham's Portable Puzzle Collection: `CxR`
/// for Solo, columns and rows of sub-blocks; `WxH` for the other games, columns and rows of cells;
/// or one number for two equal ones. In Solo an `x` may stand after two numbers.
///
/// # Errors
///
/// The first that fails of these tests, which an ID meets in the part before its colon: `BadSize`
/// where the text does not begin with a size, `Variant` where more follows, `SizeRange` where the
/// size is outside the game's limits: sides from 2 on with a product of at most 31 in Solo, sides
/// from 1 to 120 in Pattern, and from 2 to 120 in Light Up and Tents.
#[tactic(auto, unfolding(crate::specs::Head::size_of))]
pub fn read_size(game: Game, text: &[u8]) -> Result<SizeRead, IdFault>
    ensures found { IfOk result (λ size. size_of game text.now ≡ Ok size) }
    ensures fault { IfErr result (λ f. size_of game text.now ≡ Err f) }
    ensures range { IfOk result (λ size. in_range game size.w size.h ≡ true) }
{
    let SidesRead { w, h, x, rest } = sides(game, text)?;
    if !rest.is_empty() {
        return Err(IdFault::Variant);
    }
    let most = u32::from(MAX_SIDE);
    let fits = match game {
        Game::Solo => w >= 2 && h >= 2 && w * h <= MAX_NUMBERS,
        Game::Pattern => w >= 1 && h >= 1 && w <= most && h <= most,
        Game::LightUp | Game::Tents => w >= 2 && h >= 2 && w <= most && h <= most,
    };
    if fits {
        Ok(SizeRead {
            w: w as u8,
            h: h as u8,
            x,
        })
    } else {
        Err(IdFault::SizeRange)
    }
}

/// How many bytes stand before the first ':', if there is one.
fn colon_in(text: &[u8]) -> Option<usize>
    ensures { result ≡ position (λ b. b == 58) text.now }
{
    text.iter().position(|b| *b == b':')
}

/// The first six tests of an ID, in their order: the size, and the place of the description.
#[tactic(auto, unfolding(crate::specs::Head::head_of, crate::specs::Head::head_at))]
pub(crate) fn read_head(game: Game, text: &[u8]) -> Result<Head, IdFault>
    ensures found { IfOk result (λ head. head_of game text.now ≡ Ok (head_read head)) }
    ensures fault { IfErr result (λ f. head_of game text.now ≡ Err f) }
    ensures range { IfOk result (λ head. in_range game head.size.w head.size.h ≡ true) }
    ensures within { IfOk result (λ head. head.description ≤ length text.now) }
    ensures short { IfOk result (λ head. length text.now ≤ MAX_ID) }
{
    if text.len() > MAX_ID {
        return Err(IdFault::TooLong);
    }
    let Some(colon) = colon_in(text) else {
        return Err(if text.contains(&b'#') {
            IdFault::SeedId
        } else {
            IdFault::NoColon
        });
    };
    let before = &text[..colon];
    if before.contains(&b'#') {
        return Err(IdFault::SeedId);
    }
    Ok(Head {
        size: read_size(game, before)?,
        description: colon + 1,
    })
}
