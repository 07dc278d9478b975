//! Long IDs, and large grids.

use super::{long_text, written_again};
use gameid_core::{Game, IdFault};
use std::alloc::Global;
use std::test::Fail;

/// What is told of a long text: the written ID, or the fault.
type Told = Result<&'static str, IdFault>;

/// Whether it is told of the text. An empty ID stands for the text itself.
fn is_told(
    alloc: Global,
    game: Game,
    (front, piece, count, end): (&str, &str, usize, &str),
    told: Told,
) -> Result<bool, Fail> {
    let text = long_text(alloc, front, piece, count, end)?;
    let same = match written_again(alloc, game, &text) {
        Err(IdFault::Memory) => return Ok(Err(IdFault::Memory)?),
        Err(fault) => told == Err(fault),
        Ok(written) => match told {
            Ok("") => written.as_bytes() == text.as_slice(),
            Ok(id) => written.as_str() == id,
            Err(_) => false,
        },
    };
    Ok(same)
}

const CAMP: &str = "2x2:_c,0,1,1,0";

const FEW: Told = Err(IdFault::TooFew);

const MANY: Told = Err(IdFault::TooMany);

const LONG: Told = Err(IdFault::TooLong);

const COLON: Told = Err(IdFault::NoColon);

const SIZE: Told = Err(IdFault::SizeRange);

const SOLO: Told = Err(IdFault::NumberRange(4));

const TENTS: Told = Err(IdFault::NumberRange(7));

const FULL: Told = Err(IdFault::LineTooFull(0));

/// The front of an ID, a piece and how often it stands there, the end, and what is told.
static TEXTS: [(Game, &str, &str, usize, &str, Told); 38] = [
    (Game::Solo, "2x2:", "_", 65_530, "p", Ok("2x2:p")),
    (Game::Solo, "2x2:", "_", 65_531, "p", Ok("2x2:p")),
    (Game::Solo, "2x2:", "_", 65_532, "p", LONG),
    (Game::Solo, "2x2x:", "_", 65_530, "p", Ok("2x2x:p")),
    (Game::Solo, "2x2x:", "_", 65_531, "p", LONG),
    (Game::Solo, "2x2:", "_", 65_532, "", FEW),
    (Game::Solo, "2x2:", "z", 65_532, "", MANY),
    (Game::Solo, "2x2:", "z", 65_533, "", LONG),
    (Game::Solo, "2x2:", "9", 65_532, "", SOLO),
    (Game::Solo, "2x2:", "9", 65_533, "", LONG),
    (Game::Solo, "", "9", 65_532, "x2:p", SIZE),
    (Game::Solo, "", "9", 65_531, "x2x:p", SIZE),
    (Game::Solo, "", "9", 65_536, "", COLON),
    (Game::Solo, "", "9", 65_537, "", LONG),
    (Game::LightUp, "", "z", 65_536, "", COLON),
    (Game::LightUp, "", "z", 65_537, "", LONG),
    (Game::LightUp, "2x2:", "z", 65_532, "", MANY),
    (Game::Pattern, "1x1:", "0", 65_528, "1/1", Ok("1x1:1/1")),
    (Game::Pattern, "1x1:", "0", 65_529, "1/1", Ok("1x1:1/1")),
    (Game::Pattern, "1x1:", "0", 65_530, "1/1", LONG),
    (Game::Pattern, "1x1:", "9", 65_530, "/1", FULL),
    (Game::Tents, "2x2:_c,", "0", 65_523, ",1,1,0", Ok(CAMP)),
    (Game::Tents, "2x2:_c,", "0", 65_524, ",1,1,0", LONG),
    (Game::Tents, "2x2:_c,", "0", 65_522, "3,1,1,0", TENTS),
    (Game::Pattern, "120x1:", "/", 119, "", FEW),
    (Game::Pattern, "120x1:", "/", 120, "", Ok("")),
    (Game::Pattern, "120x1:", "/", 121, "", MANY),
    (Game::Pattern, "121x1:", "/", 121, "", SIZE),
    (Game::Pattern, "120x120:", "/", 239, "", Ok("")),
    (Game::Pattern, "120x120:", "/", 240, "", MANY),
    (Game::LightUp, "120x120:", "B", 14_399, "", FEW),
    (Game::LightUp, "120x120:", "B", 14_400, "", Ok("")),
    (Game::LightUp, "120x120:", "B", 14_401, "", MANY),
    (Game::LightUp, "2x121:", "B", 242, "", SIZE),
    (Game::Tents, "120x2:zzzzzzzzzo", ",0", 121, "", FEW),
    (Game::Tents, "120x2:zzzzzzzzzo", ",0", 122, "", Ok("")),
    (Game::Tents, "120x2:zzzzzzzzzo", ",0", 123, "", MANY),
    (Game::Tents, "121x2:zzzzzzzzzq", ",0", 123, "", SIZE),
];

#[test]
fn long_ids(rt: HostRuntime) -> Result<(), Fail> {
    for &(game, front, piece, count, end, told) in TEXTS.iter() {
        let same = is_told(rt.alloc(), game, (front, piece, count, end), told)?;
        assert!(rt; same, "{game:?} {front} {count} {end}");
    }
    Ok(())
}
