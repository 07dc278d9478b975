//! Sizes, grids, boards and pairings.

ghost use Rattle.std.specs.Prelude.{◌==◌, get_or};
ghost use Rattle.std.specs.Int.{bit_at};

use grid_core::{Board, Edges, Grid, Paired, Pairing, Size};
use std::alloc::{AllocError, Global};
use std::test::Fail;

#[test]
fn sizes_have_bounds(rt: HostRuntime) {
    for (w, h, cells) in [
        (1, 1, Some(1)),
        (5, 1, Some(5)),
        (119, 120, Some(14_280)),
        (120, 120, Some(14_400)),
        (0, 1, None),
        (1, 0, None),
        (121, 1, None),
        (1, 121, None),
        (255, 255, None),
    ] {
        assert_eq!(rt;
            Size::new(w, h).map(|size| size.cells()),
            cells,
            "{w} by {h}"
        );
    }
}

/// Three lefts, each with the rights that it is joined to of three rights, as bits.
#[derive(Clone, Copy)]
struct Joined {
    rights: [u8; 3],
}

impl Edges for Joined {
    ghost left_count = { λ _. 3 };

    ghost right_count = { λ _. 3 };

    ghost joins = { λ edges left right. bit_at (get_or edges.rights left 0) right == 1 };

    fn lefts(&self) -> usize {
        3
    }

    fn rights(&self) -> usize {
        3
    }

    fn next(&self, left: usize, from: usize) -> Option<usize> {
        let bits = self.rights[left];
        for right in from..3 {
            if bits >> right & 1 == 1 {
                return Some(right);
            }
        }
        None
    }
}

/// The mates of the lefts if all have one, and which are short.
fn paired(alloc: Global, rights: [u8; 3]) -> Result<(Option<[usize; 3]>, Vec<usize>), AllocError> {
    let joined = Joined { rights };
    let mut pairing = Pairing::new(alloc, joined.rights())?;
    let mates = match pairing.run(&joined) {
        Paired::All => Some([pairing.mate(0), pairing.mate(1), pairing.mate(2)]),
        Paired::Short => None,
    };
    Ok((mates, pairing.short().to_vec(alloc)?))
}

#[test]
fn lefts_are_paired_or_short(rt: HostRuntime) -> Result<(), Fail> {
    let (mates, short) = paired(rt.alloc(), [0b001, 0b011, 0b110])?;
    assert_eq!(rt; (mates, short.len()), (Some([0, 1, 2]), 0));
    let (mates, short) = paired(rt.alloc(), [0b001, 0b001, 0b110])?;
    assert!(rt; mates.is_none());
    assert_eq!(rt; short.as_slice(), [0, 1].as_slice());
    Ok(())
}

/// A grid of these numbers, each a digit.
pub(crate) fn grid_of(alloc: Global, digits: &str) -> Result<Grid, AllocError> {
    let mut grid = Grid::new(alloc, digits.len())?;
    for (place, digit) in digits.bytes().enumerate() {
        if place < grid.len() {
            grid.set(place, digit.saturating_sub(b'0'));
        }
    }
    Ok(grid)
}

/// The numbers of a grid of three cells at first, how many there are, and whether it fits 3 cells of 1 value and 2 cells;
/// and whether it fits 5 and 4 values with a 4 in it.
fn new_grid(alloc: Global) -> Result<([u8; 3], usize, [bool; 4]), AllocError> {
    let mut grid = Grid::new(alloc, 3)?;
    let (numbers, len) = ([grid.get(0), grid.get(1), grid.get(2)], grid.len());
    let first = [grid.fits(3, 1), grid.fits(2, 1)];
    grid.set(1, 4);
    Ok((
        numbers,
        len,
        [first[0], first[1], grid.fits(3, 5), grid.fits(3, 4)],
    ))
}

/// Of a board of one cell with two values, from which 1 is struck twice: how many values there are at first, whether each
/// strike strikes, and whether it is full after the first.
fn struck_twice(alloc: Global) -> Result<(usize, [bool; 2], bool), AllocError> {
    let mut board = Board::new(alloc, 1, 2)?;
    let count = board.count(0);
    let strikes = board.strike(0, 1);
    let full = board.is_full();
    Ok((count, [strikes, board.strike(0, 1)], full))
}

/// Of a board like that, which loses both values: whether a cell is empty then and the board isn't full, whether it has a value
/// that is restored twice, whether it is full, and the counts when it is filled again, when it keeps 1 alone, and of another
/// that takes it over.
fn restored(alloc: Global) -> Result<([bool; 3], [usize; 3]), AllocError> {
    let (mut board, mut other) = (Board::new(alloc, 1, 2)?, Board::new(alloc, 1, 2)?);
    board.strike(0, 0);
    board.strike(0, 1);
    let empty = board.has_empty_cell() && !board.is_full();
    board.restore(0, 1);
    board.restore(0, 1);
    let left = [empty, board.has(0, 1), board.is_full()];
    board.fill();
    let filled = board.count(0);
    if board.has(0, 1) {
        board.keep_only(0, 1);
    }
    other.copy_from(&board);
    Ok((left, [filled, board.count(0), other.count(0)]))
}

#[test]
fn grids_begin_with_zeros_and_boards_with_all(rt: HostRuntime) -> Result<(), Fail> {
    let fits = [true, false, true, false];
    assert_eq!(rt; new_grid(rt.alloc())?, ([0, 0, 0], 3, fits));
    assert_eq!(rt; struck_twice(rt.alloc())?, (2, [true, false], true));
    assert_eq!(rt; restored(rt.alloc())?, ([true; 3], [2, 1, 1]));
    Ok(())
}
