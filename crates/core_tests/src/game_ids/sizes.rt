//! Sizes, and faults before the colon.

use super::{fault_of, long_text};
use gameid_core::{Game, IdFault, read_size};
use std::alloc::Global;
use std::test::Fail;

/// The faults of a text as an ID of each game.
fn faults_of(alloc: Global, text: &[u8]) -> [Option<IdFault>; 4] {
    [
        fault_of(alloc, Game::Solo, text),
        fault_of(alloc, Game::Pattern, text),
        fault_of(alloc, Game::LightUp, text),
        fault_of(alloc, Game::Tents, text),
    ]
}

#[test]
fn faults_before_the_colon(rt: HostRuntime) -> Result<(), Fail> {
    for (fault, texts) in [
        (IdFault::NoColon, ""),
        (IdFault::NoColon, "2x2"),
        (IdFault::SeedId, "3x3#12 3x3#12:p"),
        (
            IdFault::BadSize,
            "02x2:p 2x02:p 0x2:p 2x:p 9x:p 2xx2:p :p x2:p",
        ),
        (
            IdFault::Variant,
            "2x2k:p 2x2xx:p 2x2xj:p 2x2kx:p 121x121d:p 9j:p",
        ),
        (IdFault::SizeRange, "121x2:p 99999999999999999999x2:p"),
    ] {
        for text in texts.split(' ') {
            let found = faults_of(rt.alloc(), text.as_bytes());
            assert_eq!(rt; found, [Some(fault); 4], "{text}");
        }
    }
    let text = long_text(rt.alloc(), "", "_", 65_537, "")?;
    let found = faults_of(rt.alloc(), &text);
    assert_eq!(rt; found, [Some(IdFault::TooLong); 4]);
    Ok(())
}

/// Sizes, and what is read of each.
static SIZES: [(Game, &str, Result<(u8, u8, bool), IdFault>); 29] = [
    (Game::Solo, "2x3", Ok((2, 3, false))),
    (Game::Solo, "3", Ok((3, 3, false))),
    (Game::Solo, "2x3x", Ok((2, 3, true))),
    (Game::Solo, "3x", Err(IdFault::BadSize)),
    (Game::Solo, "2x3xx", Err(IdFault::Variant)),
    (Game::Solo, "2x3x2", Err(IdFault::Variant)),
    (Game::Solo, "2x3x:", Err(IdFault::Variant)),
    (Game::LightUp, "2x3x", Err(IdFault::Variant)),
    (Game::Tents, "2x64:", Err(IdFault::Variant)),
    (Game::Tents, "x2", Err(IdFault::BadSize)),
    (Game::Solo, "1x4", Err(IdFault::SizeRange)),
    (Game::Solo, "4x1x", Err(IdFault::SizeRange)),
    (Game::Solo, "2x15", Ok((2, 15, false))),
    (Game::Solo, "15x2x", Ok((15, 2, true))),
    (Game::Solo, "2x16", Err(IdFault::SizeRange)),
    (Game::Solo, "8x4x", Err(IdFault::SizeRange)),
    (Game::Pattern, "1", Ok((1, 1, false))),
    (Game::Pattern, "119x120", Ok((119, 120, false))),
    (Game::Pattern, "120", Ok((120, 120, false))),
    (Game::Pattern, "121x1", Err(IdFault::SizeRange)),
    (Game::Pattern, "1x121", Err(IdFault::SizeRange)),
    (Game::LightUp, "1x2", Err(IdFault::SizeRange)),
    (Game::LightUp, "2x119", Ok((2, 119, false))),
    (Game::LightUp, "120x2", Ok((120, 2, false))),
    (Game::LightUp, "121x2", Err(IdFault::SizeRange)),
    (Game::Tents, "2x1", Err(IdFault::SizeRange)),
    (Game::Tents, "119x2", Ok((119, 2, false))),
    (Game::Tents, "2x120", Ok((2, 120, false))),
    (Game::Tents, "2x121", Err(IdFault::SizeRange)),
];

#[test]
fn sizes_are_read(rt: HostRuntime) {
    for &(game, text, size) in SIZES.iter() {
        let found = read_size(game, text.as_bytes()).map(|size| (size.w, size.h, size.x));
        assert_eq!(rt; found, size, "{game:?} {text}");
    }
}
