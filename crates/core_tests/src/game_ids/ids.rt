//! IDs that are read, refused and written.

use super::{fault_or_want, written_again};
use gameid_core::{Game, IdFault};
use std::alloc::Global;
use std::test::Fail;

/// IDs that are refused.
static FAULTS: [(Game, &str, IdFault); 46] = [
    (Game::Solo, "2x2:5o", IdFault::NumberRange(4)),
    (Game::Solo, "2x2:o", IdFault::TooFew),
    (Game::Solo, "2x2:", IdFault::TooFew),
    (Game::Solo, "2x2:q", IdFault::TooMany),
    (Game::Solo, "2x2:0o", IdFault::BadByte(4)),
    (Game::Solo, "2x2:p1", IdFault::TooMany),
    (Game::Solo, "2x2:p5", IdFault::NumberRange(5)),
    (Game::Solo, "2x2:a1 n", IdFault::BadByte(6)),
    (Game::Solo, "2x2:12o", IdFault::NumberRange(4)),
    (Game::Solo, "2x2x:", IdFault::TooFew),
    (Game::Solo, "2x2x:5o", IdFault::NumberRange(5)),
    (Game::Solo, "2x2x:xp", IdFault::TooMany),
    (Game::Solo, "1x4:p", IdFault::SizeRange),
    (Game::Solo, "6x6:p", IdFault::SizeRange),
    (Game::Pattern, "3x1:1/1/1/2.1", IdFault::LineTooFull(3)),
    (Game::Pattern, "2x1:1/1/1.1/", IdFault::LineTooFull(2)),
    (Game::Pattern, "2x2:1/1/1", IdFault::TooFew),
    (Game::Pattern, "2x2:1/1/1/1/", IdFault::TooMany),
    (Game::Pattern, "2x2:1./1/1/1", IdFault::BadByte(5)),
    (Game::Pattern, "1x1:0/", IdFault::NumberRange(4)),
    (Game::Pattern, "2x2:1/1/1/1,#", IdFault::BadByte(11)),
    (Game::Pattern, "2x2:1/1/ 1/1", IdFault::BadByte(8)),
    (Game::LightUp, "2x2:2d", IdFault::TooMany),
    (Game::LightUp, "2x2:5c", IdFault::BadByte(4)),
    (Game::LightUp, "2x2:2c_", IdFault::BadByte(6)),
    (Game::LightUp, "2x2:BBBBB", IdFault::TooMany),
    (Game::LightUp, "2x2:BBB", IdFault::TooFew),
    (Game::LightUp, "2x2:da", IdFault::TooMany),
    (Game::LightUp, "2x2:d0", IdFault::TooMany),
    (Game::Tents, "4x6:z,0,0,0,0,0,0,0,0,0,0", IdFault::TooMany),
    (Game::Tents, "2x2:_b,0,1,1,0", IdFault::TooFew),
    (Game::Tents, "2x2:_c,0,1,1", IdFault::TooFew),
    (Game::Tents, "2x2:_c,0,1,1,0,", IdFault::TooMany),
    (Game::Tents, "2x2:_c,0,,1,0", IdFault::BadByte(8)),
    (Game::Tents, "2x2:_c,0,1,1,3", IdFault::NumberRange(13)),
    (Game::Tents, "2x2:_c,0,1,1,0_", IdFault::BadByte(14)),
    (Game::Tents, "2x2:_c_,0,1,1,0", IdFault::TooMany),
    (Game::Tents, "2x2:_B,0,1,1,0", IdFault::BadByte(5)),
    (Game::Tents, "2x2:_d,0,1,1,0", IdFault::TooMany),
    (Game::Tents, "2x2:_ca,0,1,1,0", IdFault::TooMany),
    (Game::Tents, "2x2:_c0,1,1,0", IdFault::BadByte(6)),
    (Game::Tents, "2x2:_c,0,1_1,0", IdFault::BadByte(10)),
    (Game::Pattern, "2x2x:///", IdFault::Variant),
    (Game::Pattern, "121x2x:", IdFault::Variant),
    (Game::LightUp, "2x2x:d", IdFault::Variant),
    (Game::Tents, "2x2x:_c,0,1,1,0", IdFault::Variant),
];

#[test]
fn faults_of_ids(rt: HostRuntime) -> Result<(), Fail> {
    for &(game, text, fault) in FAULTS.iter() {
        let found = fault_or_want(rt.alloc(), game, text.as_bytes())?;
        assert_eq!(rt; found, Some(fault), "{game:?} {text}");
    }
    Ok(())
}

/// Each cut of an ID is one letter of the answers: 'c' no colon, 'f' too few, 'm' too many, 'b' a
/// bad byte, which is the last one, and '.' for an ID that is read.
fn answer_of(letter: u8, len: usize) -> Option<IdFault> {
    match letter {
        b'c' => Some(IdFault::NoColon),
        b'f' => Some(IdFault::TooFew),
        b'm' => Some(IdFault::TooMany),
        b'b' => Some(IdFault::BadByte(len.saturating_sub(1))),
        _ => None,
    }
}

const SIXTEEN: &str = "2x2:1_2_3_4_3_4_1_2_2_1_4_3_4_3_2_1";

const Y: &str = "5x5:y,0,0,0,0,0,0,0,0,0,0";

const Z: &str = "5x5:z_,0,0,0,0,0,0,0,0,0,0";

const ZA: &str = "13x2:za,0,0,0,0,0,0,0,0,0,0,0,0,0,0,0";

const OVER: &str = "4x6:z,0,0,0,0,0,0,0,0,0,0";

/// IDs, and the answers to their cuts, the shortest first.
static CUTS: [(Game, &str, &str); 10] = [
    (Game::Pattern, "5x1:1/1//1/1/2.2", "ccccfffffffff..b."),
    (Game::Solo, SIXTEEN, "ccccfffffffffffffffffffffffffffffff."),
    (Game::Solo, "2x2x:1_2_3_4l", "cccccffffffff."),
    (Game::LightUp, "2x2:2c", "ccccff."),
    (Game::LightUp, "2x2:Bc", "ccccff."),
    (Game::LightUp, "2x2:1c", "ccccff."),
    (Game::Tents, Y, "ccccffbfbfbfbfbfbfbfbfbfb."),
    (Game::Tents, Z, "ccccfffbfbfbfbfbfbfbfbfbfb."),
    (Game::Tents, ZA, "cccccfffbfbfbfbfbfbfbfbfbfbfbfbfbfbfb."),
    (Game::Tents, OVER, "ccccfmmmmmmmmmmmmmmmmmmmmm"),
];

/// The first length at which a cut of the text hasn't the answer of its letter, or there is a cut or a letter alone; none
/// if there is no such length.
fn first_wrong_cut(
    alloc: Global,
    game: Game,
    text: &[u8],
    answers: &[u8],
) -> Result<Option<usize>, IdFault> {
    for (len, answer) in answers.iter().enumerate() {
        if len > text.len() {
            return Ok(Some(len));
        }
        if fault_or_want(alloc, game, &text[..len])? != answer_of(*answer, len) {
            return Ok(Some(len));
        }
    }
    if answers.len() <= text.len() {
        return Ok(Some(answers.len()));
    }
    Ok(None)
}

#[test]
fn cut_ids(rt: HostRuntime) -> Result<(), Fail> {
    for &(game, text, answers) in CUTS.iter() {
        let wrong = first_wrong_cut(rt.alloc(), game, text.as_bytes(), answers.as_bytes())?;
        assert_eq!(rt; wrong, None, "{game:?} {text}");
    }
    Ok(())
}

const ZEROS: &str = "5:y,00,0,0,0,0,0,0,0,0,05";

const FIVE: &str = "5x5:y,0,0,0,0,0,0,0,0,0,5";

const THIRTEEN: &str = "13x2:za,0,0,0,0,0,0,0,0,0,0,0,0,0,0,13";

/// IDs, and how each is written.
static WRITTEN: [(Game, &str, &str); 21] = [
    (Game::Solo, "2:p", "2x2:p"),
    (Game::Solo, "2x2:__p_", "2x2:p"),
    (Game::Solo, "2x2:1_1n", "2x2:1_1n"),
    (Game::Solo, "3x2:ajjkd", "3x2:zj"),
    (Game::Solo, "2x2:4a_b3a_2_1h", "2x2:4c3a2_1h"),
    (Game::Solo, "2x5:zzsz10_9_8", "2x5:zzzs10_9_8"),
    (Game::Solo, "2x2x:p", "2x2x:p"),
    (Game::Solo, "2x2x:1_2_3_4_3k", "2x2x:1_2_3_4_3k"),
    (Game::Solo, "3x2x:_ajjkd", "3x2x:zj"),
    (Game::Pattern, "5x1:1/1//1/1/2.2", "5x1:1/1//1/1/2.2"),
    (Game::Pattern, "1x1:01/1", "1x1:1/1"),
    (Game::Pattern, "2:2/2/02/002", "2x2:2/2/2/2"),
    (Game::LightUp, "2x2:2c", "2x2:2c"),
    (Game::LightUp, "2:aaBa", "2x2:bBa"),
    (Game::LightUp, "4x7:azB", "4x7:zaB"),
    (Game::LightUp, "3x3:aBBa1aBb", "3x3:aBBa1aBb"),
    (Game::Tents, "2x2:_c,0,1,1,0", "2x2:_c,0,1,1,0"),
    (Game::Tents, Y, Y),
    (Game::Tents, Z, Y),
    (Game::Tents, ZEROS, FIVE),
    (Game::Tents, THIRTEEN, THIRTEEN),
];

/// Whether the puzzle that an ID spells is written so.
fn is_written(alloc: Global, game: Game, text: &str, id: &str) -> Result<bool, IdFault> {
    Ok(written_again(alloc, game, text.as_bytes())?.as_str() == id)
}

#[test]
fn read_and_written(rt: HostRuntime) -> Result<(), Fail> {
    for &(game, text, want) in WRITTEN.iter() {
        let same = is_written(rt.alloc(), game, text, want)?;
        assert!(rt; same, "{game:?} {text}");
    }
    Ok(())
}
