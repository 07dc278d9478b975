//! Calls with ample memory. What they are to write follows from the rules and the formats by hand.
use crate::{
    TOO_SMALL, puzzles_check, puzzles_generate, puzzles_grade, puzzles_solve, puzzles_solve_each,
    puzzles_version,
};
use std::alloc::Global;
use std::test::Fail;

const SOLO: u8 = 0;

const PATTERN: u8 = 1;

const LIGHT_UP: u8 = 2;

const TENTS: u8 = 3;

const NO_GAME: u8 = 4;

/// The output of a call, and how much of it was written.
#[derive(Drop)]
struct Room {
    output: [u8; 32],
    written: usize,
}

impl Room {
    fn new() -> Room {
        Room {
            output: [b'-'; 32],
            written: 0,
        }
    }

    fn text(&self) -> &[u8] {
        self.output.get(..self.written).unwrap_or(b"")
    }
}

/// What `puzzles_generate` makes of a seed and the usual budget, with its status.
fn made(alloc: Global, game: u8, size: &[u8], tries: u32, black: u8) -> (Room, u8) {
    let mut room = Room::new();
    let (output, written) = (&mut room.output, &mut room.written);
    let status = puzzles_generate(alloc, game, size, 1, 1_000, tries, black, output, written);
    (room, status)
}

/// What `puzzles_solve` says of an ID, with its status.
fn solved(alloc: Global, game: u8, id: &[u8], budget: u64) -> (Room, u8) {
    let mut room = Room::new();
    let status = puzzles_solve(alloc, game, id, budget, &mut room.output, &mut room.written);
    (room, status)
}

#[test]
fn solves(rt: HostRuntime) -> Result<(), Fail> {
    for (game, id, budget, text, wanted) in [
        (PATTERN, "5x1:1/1//1/1/2.2", 0, "one\n##.##\n", 0),
        (TENTS, "2x2:_c,0,1,1,0", 0, "one\nT^\n..\n", 0),
        (LIGHT_UP, "2x2:1c", 0, "gave up\n", 4),
        (LIGHT_UP, "2x2:1c", 2, "none\n", 1),
        (PATTERN, "2x2:1/1/1/1", 2, "several\n.#\n#.\n\n#.\n.#\n", 3),
        (SOLO, "2x2", 2, "refused: no colon\n", 2),
        (NO_GAME, "5x1:1/1//1/1/2.2", 0, "refused: words\n", 2),
    ] {
        let (room, status) = solved(rt.alloc(), game, id.as_bytes(), budget);
        assert_eq!(rt; status, wanted, "{id}");
        assert_eq!(rt; room.text(), text.as_bytes(), "{id}");
    }
    Ok(())
}

#[test]
fn makes(rt: HostRuntime) -> Result<(), Fail> {
    for (game, size, tries, black, text, wanted) in [
        (PATTERN, "2x2", 1, 100, "2x2:2/2/2/2\n##\n##\n", 0),
        (LIGHT_UP, "2x2", 1, 100, "2x2:BBBB\n##\n##\n", 0),
        (SOLO, "2x2", 0, 0, "exhausted\n", 4),
        (TENTS, "3x3", 1, 100, "refused: size range\n", 2),
        (PATTERN, "2x2", 1, 0, "2x2:///\n..\n..\n", 0),
        (PATTERN, "2x2", 1, 101, "refused: words\n", 2),
    ] {
        let (room, status) = made(rt.alloc(), game, size.as_bytes(), tries, black);
        assert_eq!(rt; status, wanted, "{size}");
        assert_eq!(rt; room.text(), text.as_bytes(), "{size}");
    }
    Ok(())
}

#[test]
fn solves_lines(rt: HostRuntime) -> Result<(), Fail> {
    let mut room = Room::new();
    let lines = "1x1:/\n\n2x1:1/1/1";
    let status = puzzles_solve_each(
        rt.alloc(),
        PATTERN,
        lines.as_bytes(),
        0,
        &mut room.output,
        &mut room.written,
    );
    assert_eq!(rt; status, 2);
    assert_eq!(rt; room.text(), "one\n.\nrefused: no colon\nnone\n".as_bytes());
    Ok(())
}

#[test]
fn checks(rt: HostRuntime) -> Result<(), Fail> {
    for (grid, text, wanted) in [
        ("T^\n..\n", "correct\n", 0),
        ("T^\n^.\n", "wrong: touch 1,0\n", 1),
        ("", "refused: grid\n", 2),
    ] {
        let (id, mut room) = ("2x2:_c,0,1,1,0", Room::new());
        let (output, written) = (&mut room.output, &mut room.written);
        let grid = grid.as_bytes();
        let status = puzzles_check(rt.alloc(), TENTS, id.as_bytes(), grid, output, written);
        assert_eq!(rt; status, wanted, "{text}");
        assert_eq!(rt; room.text(), text.as_bytes());
    }
    Ok(())
}

#[test]
fn grades(rt: HostRuntime) -> Result<(), Fail> {
    for traced in [0, 1, 2, 128, 255] {
        let (id, mut room) = ("2x2:2c", Room::new());
        let (output, written) = (&mut room.output, &mut room.written);
        let id = id.as_bytes();
        let status = puzzles_grade(rt.alloc(), LIGHT_UP, id, 0, traced, output, written);
        assert_eq!(rt; status, 0);
        assert_eq!(rt; room.text().get(..6), Some("local\n".as_bytes()));
        assert_eq!(rt; room.written > 6, traced != 0, "{traced}");
    }
    Ok(())
}

#[test]
fn too_small_an_output_stays(rt: HostRuntime) -> Result<(), Fail> {
    let id = "5x1:1/1//1/1/2.2".as_bytes();
    for length in 0..11 {
        let mut output = [b'-'; 11];
        let mut written = 0;
        let (room, rest) = output.split_at_mut(length);
        let status = puzzles_solve(rt.alloc(), PATTERN, id, 0, room, &mut written);
        assert_eq!(rt; written, 10);
        assert_eq!(rt; rest.first(), Some(&b'-'));
        let (wanted, text) = match length {
            10 => (0, "one\n##.##\n-"),
            _ => (TOO_SMALL, "-----------"),
        };
        assert_eq!(rt; status, wanted, "{length}");
        assert_eq!(rt; output.as_slice(), text.as_bytes(), "{length}");
    }
    Ok(())
}

#[test]
fn the_version_is_told(rt: HostRuntime) {
    assert_eq!(rt; puzzles_version(), 1);
}
