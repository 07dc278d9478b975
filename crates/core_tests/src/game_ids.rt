//! Game IDs and printed grids.

mod ids;
mod limits;
mod sizes;

use gameid_core::{
    Game, IdFault, read_lights, read_pattern, read_solo, read_tents, write_lights, write_pattern,
    write_solo, write_tents,
};
use std::alloc::{AllocError, Global};

/// The fault of an ID, if it has one.
fn fault_of(alloc: Global, game: Game, text: &[u8]) -> Option<IdFault> {
    match game {
        Game::Solo => read_solo(alloc, text).err(),
        Game::Pattern => read_pattern(alloc, text).err(),
        Game::LightUp => read_lights(alloc, text).err(),
        Game::Tents => read_tents(alloc, text).err(),
    }
}

/// The fault of an ID, if it has one, or want of memory.
fn fault_or_want(alloc: Global, game: Game, text: &[u8]) -> Result<Option<IdFault>, IdFault> {
    match fault_of(alloc, game, text) {
        Some(IdFault::Memory) => Err(IdFault::Memory),
        fault => Ok(fault),
    }
}

fn solo_again(alloc: Global, text: &[u8]) -> Result<String, IdFault> {
    Ok(write_solo(alloc, &read_solo(alloc, text)?)?)
}

fn pattern_again(alloc: Global, text: &[u8]) -> Result<String, IdFault> {
    Ok(write_pattern(alloc, &read_pattern(alloc, text)?)?)
}

fn lights_again(alloc: Global, text: &[u8]) -> Result<String, IdFault> {
    Ok(write_lights(alloc, &read_lights(alloc, text)?)?)
}

fn tents_again(alloc: Global, text: &[u8]) -> Result<String, IdFault> {
    Ok(write_tents(alloc, &read_tents(alloc, text)?)?)
}

/// The written ID of the puzzle that an ID spells.
fn written_again(alloc: Global, game: Game, text: &[u8]) -> Result<String, IdFault> {
    match game {
        Game::Solo => solo_again(alloc, text),
        Game::Pattern => pattern_again(alloc, text),
        Game::LightUp => lights_again(alloc, text),
        Game::Tents => tents_again(alloc, text),
    }
}

/// A text of a front, so many copies of a piece, and an end.
pub(crate) fn long_text(
    alloc: Global,
    front: &str,
    piece: &str,
    count: usize,
    end: &str,
) -> Result<Vec<u8>, AllocError> {
    let mut text = front.as_bytes().to_vec(alloc)?;
    for _ in 0..count {
        text.extend_from_slice(piece.as_bytes())?;
    }
    text.extend_from_slice(end.as_bytes())?;
    Ok(text)
}
