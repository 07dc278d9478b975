//! Rows and columns of a puzzle of Light Up, and their runs of white cells.
#![tactic(auto, using(crate::proofs::LawSets::light_line_laws))]

ghost use Rattle.std.specs.Prelude.{◌≡◌, ℕ, ◌+◌, ◌*◌, ◌<◌, ◌≤◌, ◌^◌, true};
ghost use Rattle.fields_core.specs.Light.{light_cells};

use crate::count::house::{Segment, next_passing};
use crate::light_up::cells::{columns, is_white, rows};
use gameid_core::LightPuzzle;

/// A row or a column. The cell of number `i` along it stands at `first + i * stride`.
#[derive(Clone, Copy)]
pub(crate) struct WhiteLine<'a> {
    puzzle: &'a LightPuzzle,
    first: usize,
    stride: usize,
    len: usize,
    ghost within: { (i : ℕ) → i < len → first + i * stride < light_cells puzzle.now },
    ghost small: { first + len * stride < 2 ^ 16 },
    ghost near: { stride < 2 ^ 8 },
    ghost short: { len < 2 ^ 8 },
}

impl<'a> WhiteLine<'a> {
    ghost use Rattle.fields_core.specs.Common.{IsAround, IsLine, RunsOn, cells_along, segment_places, whites_of};

    /// The row of that number.
    pub(crate) fn row(puzzle: &'a LightPuzzle, y: usize) -> WhiteLine<'a>
        requires { y < puzzle.now.size.h }
        ensures { IsLine puzzle.now (y * puzzle.now.size.w) 1 puzzle.now.size.w result }
    {
        let len = columns(puzzle);
        WhiteLine {
            puzzle,
            first: y * len,
            stride: 1,
            len,
        }
    }

    /// The column of that number.
    pub(crate) fn column(puzzle: &'a LightPuzzle, x: usize) -> WhiteLine<'a>
        requires { x < puzzle.now.size.w }
        ensures { IsLine puzzle.now x puzzle.now.size.w puzzle.now.size.h result }
    {
        WhiteLine {
            puzzle,
            first: x,
            stride: columns(puzzle),
            len: rows(puzzle),
        }
    }

    /// The place of its cell of that number.
    pub(crate) fn place(&self, at: usize) -> usize
        requires { at < self.now.len }
        ensures place { result ≡ self.now.first + at * self.now.stride }
        ensures few { result < 2 ^ 16 }
    {
        self.first + at * self.stride
    }

    /// Whether that cell is white.
    pub(crate) fn is_white(&self, at: usize) -> bool
        requires { at < self.now.len }
        ensures { result ≡ whites_of self.now at }
    {
        is_white(self.puzzle, self.place(at))
    }

    /// Where the run of white cells ends that a white cell is in: the number after that of its last cell.
    pub(crate) fn run_end(&self, at: usize) -> usize
        requires { at < self.now.len }
        ensures { RunsOn (whites_of self.now) self.now.len at result }
    {
        next_passing(at + 1, self.len, |after| !self.is_white(after)).unwrap_or(self.len)
    }

    /// Where that run begins and where it ends.
    pub(crate) fn run(&self, at: usize) -> (usize, usize)
        requires at_in { at < self.now.len }
        requires white { whites_of self.now at ≡ true }
        ensures { IsAround (whites_of self.now) self.now.len at result.0 result.1 }
    {
        let before = next_passing(0, at, |back| !self.is_white(at - back - 1)).unwrap_or(at);
        (at - before, self.run_end(at))
    }

    /// Its cells from one number to the one before another.
    pub(crate) fn segment(&self, from: usize, to: usize) -> Segment
        requires low { from ≤ to }
        requires high { to ≤ self.now.len }
        ensures { segment_places result ≡ cells_along self.now.first self.now.stride from to }
    {
        Segment::of(self.first + from * self.stride, self.stride, to - from)
    }
}
