//! Calls that take memory and that no other test makes by themselves: with ample memory each answers what it is to.

ghost use Rattle.std.specs.Prelude.{◌≡◌, ◌∷◌, [], IfOk, ◌≤◌};
ghost use Rattle.grid_core.specs.Planes.{plane_cells};

use crate::grid::grid_of;
use engine_core::HouseList;
use gameid_core::*;
use grid_core::{Fixed, Line, Planes, Size, Word};
use std::alloc::{AllocError, Global};
use std::test::Fail;

/// The ID of a copy of the puzzle of Tents with these trees and tents in two rows.
fn of_parts(alloc: Global, w: u8, parts: [&str; 2]) -> Result<String, Fail> {
    let size = Size::new(w, 2).ok_or("a size")?;
    let (trees, tents) = (grid_of(alloc, parts[0])?, grid_of(alloc, parts[1])?);
    let fit = trees.fits(size.cells(), 2) && tents.fits(size.cells(), 2);
    if size.w() < 2 || size.h() < 2 || !fit {
        return Ok(Err("grids")?);
    }
    let puzzle = TentsPuzzle::of_parts(alloc, size, &trees, &tents)?;
    Ok(write_tents(alloc, &puzzle.copy(alloc)?)?)
}

#[test]
fn puzzles_are_made_of_parts(rt: HostRuntime) -> Result<(), Fail> {
    let one = of_parts(rt.alloc(), 2, ["1000", "0100"])?;
    assert_eq!(rt; one.as_str(), "2x2:_c,0,1,1,0");
    let two = of_parts(rt.alloc(), 3, ["010001", "101000"])?;
    assert_eq!(rt; two.as_str(), "3x2:ac_,1,0,1,2,0");
    Ok(())
}

/// The ID of the puzzle of Pattern whose clues are the runs of a grid of 3 by 2 cells.
fn of_grid(alloc: Global, numbers: &str) -> Result<String, Fail> {
    let (size, grid) = (Size::new(3, 2).unwrap(), grid_of(alloc, numbers)?);
    if !grid.fits(size.cells(), 2) {
        return Ok(Err("a grid")?);
    }
    let puzzle = PatternPuzzle::of_grid(alloc, size, &grid)?;
    Ok(write_pattern(alloc, &puzzle)?)
}

#[test]
fn clues_are_the_runs_of_a_grid(rt: HostRuntime) -> Result<(), Fail> {
    assert_eq!(rt; of_grid(rt.alloc(), "110101")?.as_str(), "3x2:2/1/1/2/1.1");
    Ok(())
}

/// The IDs of a blank puzzle of 2 by 3 blocks, of it with three givens, and of a copy without one of these, and whether that
/// is of Solo X; its blocks, its numbers, and its first given.
fn solo_set(alloc: Global, x: bool) -> Result<(String, [u8; 4]), Fail> {
    let mut puzzle = SoloPuzzle::blank(alloc, 2, 3, x)?;
    let blank = write_solo(alloc, &puzzle)?;
    puzzle.set_given(0, 1);
    puzzle.set_given(1, 4);
    puzzle.set_given(35, 6);
    let three = write_solo(alloc, &puzzle)?;
    let mut copy = puzzle.copy(alloc)?;
    copy.set_given(1, 0);
    let two = write_solo(alloc, &copy)?;
    let (x, told) = (copy.x(), [copy.c(), copy.r(), copy.n(), copy.given(0)]);
    Ok((format!(in alloc; "{blank} {three} {two} {x}")?, told))
}

/// The IDs of a blank puzzle of Light Up and of a copy with two black cells; and two cells of that.
fn lights_set(alloc: Global) -> Result<(String, [LightCell; 2]), Fail> {
    let blank = LightPuzzle::blank(alloc, Size::new(2, 3).unwrap())?;
    let mut copy = blank.copy(alloc)?;
    copy.set_cell(1, LightCell::Black);
    copy.set_cell(5, LightCell::Numbered(3));
    let (first, second) = (write_lights(alloc, &blank)?, write_lights(alloc, &copy)?);
    Ok((
        format!(in alloc; "{first} {second}")?,
        [copy.cell(4), copy.cell(5)],
    ))
}

#[test]
fn puzzles_are_blank_set_and_copied(rt: HostRuntime) -> Result<(), Fail> {
    for (x, ids) in [
        (false, "2x3:zj 2x3:1_4zg6 2x3:1zh6 false"),
        (true, "2x3x:zj 2x3x:1_4zg6 2x3x:1zh6 true"),
    ] {
        let (text, told) = solo_set(rt.alloc(), x)?;
        assert_eq!(rt; (text.as_str(), told), (ids, [2, 3, 6, 1]));
    }
    let (text, cells) = lights_set(rt.alloc())?;
    assert_eq!(rt; text.as_str(), "2x3:f 2x3:aBc3");
    assert_eq!(rt; cells, [LightCell::White, LightCell::Numbered(3)]);
    Ok(())
}

/// What is printed of the grid of Light Up whose printed form a text is, if it is one.
fn printed(alloc: Global, id: &str, text: &str) -> Result<Option<String>, Fail> {
    let puzzle = read_lights(alloc, id.as_bytes())?;
    let Some(grid) = read_grid(alloc, &puzzle, text.as_bytes().to_vec(alloc)?)? else {
        return Ok(None);
    };
    let mut printed = String::new(alloc);
    push_grid(&mut printed, &puzzle, &grid)?;
    Ok(Some(printed))
}

#[test]
fn grids_are_read_and_printed(rt: HostRuntime) -> Result<(), Fail> {
    let (id, text) = ("3x3:aBBa1aBb", ".##\nO1.\n#.O\n");
    let told = printed(rt.alloc(), id, ".##\nO1.\n#.O")?;
    assert!(rt; told.is_some_and(|printed| printed.as_str() == text));
    assert!(rt; printed(rt.alloc(), id, ".##\nO2.\n#.O")?.is_none());
    Ok(())
}

/// Three houses, the last of them with no cell.
fn three_houses(alloc: Global) -> Result<HouseList, AllocError>
    ensures { IfOk result (λ list. list
        ≡ record { closed = (0 ∷ 2 ∷ []) ∷ (2 ∷ 1 ∷ []) ∷ [] ∷ []; begun = [] }) }
{
    let mut list = HouseList::new(alloc, 3, 4)?;
    list.push(0)?;
    list.push(2)?;
    list.end()?;
    list.push(2)?;
    list.push(1)?;
    list.end()?;
    list.end()?;
    Ok(list)
}

/// The numbers of houses and of their cells in the list, and of the cells of houses 1 and 2.
fn list_numbers(alloc: Global) -> Result<[usize; 4], AllocError> {
    let list = three_houses(alloc)?.freeze();
    let cells = [list.places(1).len(), list.places(2).len()];
    Ok([list.len(), list.total(), cells[0], cells[1]])
}

/// What planes of 3 by 2 cells can have at 1 and 3: at first, after cell 1 lost 1 and cell 3 lost 0, and after that was undone.
fn planes_that_lose<W: Word>(alloc: Global) -> Result<[[bool; 4]; 3], AllocError>
    requires { 3 ≤ W.room }
{
    let mut planes = Planes::<W>::new(alloc, Size::new(3, 2).unwrap())?;
    let (first, len) = (sets_of(&planes), planes.len());
    planes.take(Line::Row(0), 1, W::one(1));
    planes.take(Line::Column(0), 0, W::one(1));
    let lost = sets_of(&planes);
    planes.undo(len);
    Ok([first, lost, sets_of(&planes)])
}

/// Whether cells 1 and 3 can have 0 and 1.
fn sets_of<W: Word>(planes: &Planes<W>) -> [bool; 4]
    requires { plane_cells planes.now ≡ 6 }
{
    [
        planes.has(1, 0),
        planes.has(1, 1),
        planes.has(3, 0),
        planes.has(3, 1),
    ]
}

#[test]
fn lists_and_planes_are_made(rt: HostRuntime) -> Result<(), Fail> {
    assert_eq!(rt; list_numbers(rt.alloc())?, [3, 4, 2, 0]);
    let copies = Fixed::copies(rt.alloc(), 7u8, 3)?;
    assert_eq!(rt; &copies[..], [7, 7, 7].as_slice());
    let told = [[true; 4], [true, false, false, true], [true; 4]];
    assert_eq!(rt; planes_that_lose::<u64>(rt.alloc())?, told);
    assert_eq!(rt; planes_that_lose::<u128>(rt.alloc())?, told);
    Ok(())
}
