//! A visit of a count house on planes: its ones are counted by words.

ghost use Rattle.std.specs.Prelude.{◌<◌, ◌≡◌, ◌≤◌, false, length, true};
ghost use Rattle.fields_core.specs.Parts.{ArePartsCounted};
ghost use Rattle.fields_core.specs.Common.{ArePieces, ArePlanesAlive, IsFurther, IsHouseBroken, IsHouseLeft, IsStruck, piece_at, piece_of, pieces_of};

use grid_core::{Line, Planes, Word};

/// Some cells of a line: their places along it.
#[derive(Clone, Copy)]
pub struct Part<W> {
    pub line: Line,
    pub cells: W,
}

/// A part of a line, or two parts.
#[derive(Clone, Copy)]
pub struct Parts<W> {
    pub first: Part<W>,
    pub second: Option<Part<W>>,
}

impl<W: Word> Parts<W> {
    /// How many there are.
    fn len(&self) -> usize
        ensures { result ≡ length (pieces_of W.bits self.now) }
    {
        if self.second.is_some() { 2 } else { 1 }
    }

    /// The part of that number.
    fn part(&self, number: usize) -> Part<W>
        requires { number < length (pieces_of W.bits self.now) }
        ensures { piece_of W.bits result ≡ piece_at (pieces_of W.bits self.now) number }
    {
        match self.second {
            Some(part) if number > 0 => part,
            _ => self.first,
        }
    }
}

/// How many cells of the parts can be a one, and how many of these are undecided: can be a zero too.
#[inline(always)]
fn count<W: Word>(planes: &Planes<W>, parts: &Parts<W>) -> (usize, usize)
    requires { ArePieces planes.now.size (pieces_of W.bits parts.now) }
    ensures { ArePartsCounted planes.now (pieces_of W.bits parts.now) result.0 result.1 }
{
    let mut may = 0;
    let mut undecided = 0;
    for number in 0..parts.len() {
        let part = parts.part(number);
        let ones = planes.line(part.line, 1).both(part.cells);
        let open = ones.both(planes.line(part.line, 0));
        may += ones.count();
        undecided += open.count();
    }
    (may, undecided)
}

/// Takes the value from those cells of the parts that have the other value.
#[inline(always)]
fn strike<W: Word>(planes: &mut Planes<W>, parts: &Parts<W>, value: u8)
    requires pieces { ArePieces planes.old.size (pieces_of W.bits parts.now) }
    requires value_in { value < 2 }
    ensures left { IsStruck (pieces_of W.bits parts.now) value planes.old planes.new }
    ensures further { IsFurther planes.old planes.new }
{
    for number in 0..parts.len() {
        let part = parts.part(number);
        let other = planes.line(part.line, 1 - value).both(part.cells);
        planes.take(part.line, value, other);
    }
}

/// Visits the count house of the cells of these parts: at least and at most so many of them are ones. Undecided cells lose
/// 1 if enough cells must be ones, and 0 if all that can be ones are needed. Says whether the house has a filling: if not,
/// nothing is taken.
#[inline(always)]
pub fn visit<W: Word>(planes: &mut Planes<W>, parts: &Parts<W>, least: usize, most: usize) -> bool
    requires pieces { ArePieces planes.old.size (pieces_of W.bits parts.now) }
    requires order { least ≤ most }
    requires alive { ArePlanesAlive planes.old }
    ensures left { result ≡ true
        → IsHouseLeft (pieces_of W.bits parts.now) least most planes.old planes.new }
    ensures broken { result ≡ false
        → IsHouseBroken (pieces_of W.bits parts.now) least most planes.old }
    ensures unchanged { result ≡ false → planes.new ≡ planes.old }
    ensures alive { ArePlanesAlive planes.new }
    ensures further { IsFurther planes.old planes.new }
{
    let (may, undecided) = count(planes, parts);
    let must = may - undecided;
    if least < may && must < most {
        return true;
    }
    if may < least || most < must {
        return false;
    }
    if undecided > 0 {
        strike(planes, parts, u8::from(must == most));
    }
    true
}
