//! A board that is closed by plain visits.
#![tactic(auto, using(crate::proofs::LawSets::position_laws))]

ghost use Rattle.std.specs.Prelude.{◌-◌, ◌<◌, ◌≡◌, ◌≤◌, IfOk, false, if◌then◌else◌, length, max, not, slice_set, true};
ghost use Rattle.engine_core.specs.Common.{from_bool, has, SameShape, cells_of, is_solved, own_grid, is_queue, IsClosedAround, IsClosedBut, IsClosedBy, IsFull, needs_in, needs_of, FitsIn, IsBoardOf, IsClosedFrom, IsVisited, SameRoom, IsAlive, IsRested, is_waiting, Dead, Open};

use crate::closing::marking::{is_house_dead, mark_after, mark_at};
use crate::houses::visit::read_head;
use crate::mode::{Closing, Taken};
use crate::needs::{Needs, needs_for};
use crate::rules::{Rules, by_queue};
use crate::trail::cells::write_grid;
use crate::waits::{dequeue, next_around};
use grid_core::{Board, Fixed, Grid};
use std::alloc::{AllocError, Global};
use std::marker::Model;

/// What a visit or a sweep did: whether it struck anything, and whether a cell lost its last value.
#[derive(Clone, Copy)]
pub(crate) struct Effect {
    pub struck: bool,
    pub dead: bool,
}

/// What a closing came to that made so many turns: visits of a queue, or sweeps. A last sweep counts only where it struck
/// something, or where it is the only one.
fn report<R: Rules>(dead: bool, turns: usize, struck: bool) -> Taken
    ensures closing { result.closing ≡ (if dead then Dead else Open) }
    ensures turns { result.turns ≡ (if is_queue R.MODE then turns
        else max (turns - from_bool (not struck)) 1) }
{
    let closing = if dead { Closing::Dead } else { Closing::Open };
    if by_queue::<R>() {
        return Taken { closing, turns };
    }
    let turns = turns.saturating_sub(usize::from(!struck)).max(1);
    Taken { closing, turns }
}

/// A board, and what it takes to close it: what the rules work in, room for the sets that a house's cells had before its
/// visit, a mark for each house that waits, and room for the houses visited, if they are to be written down.
#[derive(Drop)]
pub(crate) struct Closer<R: Rules> {
    pub(crate) made: Needs,
    scratch: R::Scratch,
    sets: Fixed<u32>,
    pub(crate) waits: Fixed<u64>,
    pub(crate) trace: Fixed<usize>,
    board: Board,
}

impl<R: Rules> Model for Closer<R> {
    ghost use Rattle.engine_core.specs.Common.{needs_in, BoardAndMarks, IsCloserOf};

    ghost Value = { BoardAndMarks };

    ghost view = { λ c. record {
      made = needs_in c.made;
      board = c.board;
      waits = c.waits.items;
      trace = c.trace.items;
    } };

    ghost invariant = { λ c. IsCloserOf (needs_in c.made) c.board c.sets.items c.waits.items
        × R.serves c.scratch (needs_in c.made) };
}

impl<R: Rules> Closer<R> {
    /// The memory that closings by these rules, and by smaller ones, need. The board is full. So many visits of a closing are
    /// written down, the first ones.
    ///
    /// # Errors
    ///
    /// When memory was refused.
    pub(crate) fn new(alloc: Global, rules: &R, trace: usize) -> Result<Closer<R>, AllocError>
        ensures made { IfOk result (λ closer. closer.made ≡ needs_of (R.system rules.now)) }
        ensures trace { IfOk result (λ closer. length closer.trace ≡ trace) }
    {
        let made = needs_for(rules);
        Ok(Closer {
            made,
            scratch: rules.scratch(alloc)?,
            sets: Fixed::copies(alloc, 0u32, made.scope)?,
            waits: Fixed::copies(alloc, 0u64, made.houses / 64 + 1)?,
            trace: Fixed::copies(alloc, 0usize, trace)?,
            board: Board::new(alloc, made.cells, made.values)?,
        })
    }

    /// The board.
    pub(crate) fn board(&self) -> &Board
        ensures board { result.now ≡ self.now.board }
        ensures cells { cells_of result.now ≡ self.now.made.cells }
        ensures values { result.now.values ≡ self.now.made.values }
    {
        &self.board
    }

    /// Begins with the board that a search starts from.
    pub(crate) fn start(&mut self, rules: &R)
        requires fits { FitsIn (needs_of (R.system rules.now)) self.old.made }
        ensures start { has self.new.board ≡ (R.system rules.now).start }
        ensures room { SameRoom self.old self.new }
    {
        rules.start(&mut self.board); // whatever it held
    }

    /// Begins with this board.
    pub(crate) fn copy(&mut self, rules: &R, board: &Board)
        requires fits { FitsIn (needs_of (R.system rules.now)) self.old.made }
        requires board_of { IsBoardOf (R.system rules.now) board.now }
        ensures board { self.new.board ≡ board.now }
        ensures room { SameRoom self.old self.new }
    {
        self.board.copy_from(board);
    }

    /// Visits the house, and takes its mark away. Where it struck anything, the houses of each cell that lost a value are
    /// marked in a queue, and else all houses.
    pub(crate) fn step(&mut self, rules: &R, house: usize) -> Effect
        requires fits { FitsIn (needs_of (R.system rules.now)) self.old.made }
        requires house_in { house < (R.system rules.now).houses }
        ensures visited { IsVisited (R.system rules.now) house self.old self.new result }
        ensures room { SameRoom self.old self.new }
        ensures trace { self.new.trace ≡ self.old.trace }
    {
        dequeue(&mut self.waits, house);
        read_head(rules, house, &self.board, &mut self.sets);
        if !rules.visit(house, &mut self.board, &mut self.scratch) {
            return Effect {
                struck: false,
                dead: false,
            };
        }
        mark_after(rules, house, &self.sets, &self.board, &mut self.waits);
        Effect {
            struck: true,
            dead: is_house_dead(rules, house, &self.board),
        }
    }

    /// Closes the board: at first each house waits.
    pub(crate) fn close(&mut self, rules: &R) -> Taken
        requires fits { FitsIn (needs_of (R.system rules.now)) self.old.made }
        ensures closing { IsClosedFrom (R.system rules.now) (is_queue R.MODE) self.old result
            self.new }
        ensures room { SameRoom self.old self.new }
    {
        if self.board.has_empty_cell() {
            return Taken {
                closing: Closing::Dead,
                turns: 0,
            };
        }
        self.waits.fill(u64::MAX);
        self.run(rules)
    }

    /// Closes the board, which was closed before the cell of that place lost all values but one: at first the houses of the
    /// place wait.
    fn close_around(&mut self, rules: &R, place: usize) -> Taken
        requires fits { FitsIn (needs_of (R.system rules.now)) self.old.made }
        requires closed { IsClosedAround (R.system rules.now) (has self.old.board) place }
        ensures closing { IsClosedFrom (R.system rules.now) (is_queue R.MODE) self.old result
            self.new }
        ensures room { SameRoom self.old self.new }
    {
        self.waits.fill(0);
        mark_at(rules, place, &mut self.waits);
        self.run(rules)
    }

    /// Closes this board. Where a place is named, the board was closed before that place's cell lost all values but one.
    pub(crate) fn close_board(&mut self, rules: &R, board: &Board, from: Option<usize>) -> Taken
        requires fits { FitsIn (needs_of (R.system rules.now)) self.old.made }
        requires board_of { IsBoardOf (R.system rules.now) board.now }
        requires closed_but { IsClosedBut (R.system rules.now) (has board.now) from }
        ensures closing { IsClosedBy (R.system rules.now) (is_queue R.MODE) (has board.now) result
            self.new }
        ensures board_of { IsBoardOf (R.system rules.now) self.new.board }
        ensures room { SameRoom self.old self.new }
    {
        self.copy(rules, board);
        match from {
            None => self.close(rules),
            Some(place) => self.close_around(rules, place),
        }
    }

    /// Writes down a visit by its number, if there is room for it.
    fn note(&mut self, number: usize, house: usize)
        ensures board { self.new.board ≡ self.old.board }
        ensures waits { self.new.waits ≡ self.old.waits }
        ensures noted { self.new.trace ≡ slice_set self.old.trace number house }
        ensures room { SameRoom self.old self.new }
    {
        if number < self.trace.len() {
            self.trace[number] = house;
        }
    }

    /// Closes the board: goes around over the houses that wait and visits each, until none waits, or a cell has no value. A
    /// queue ends there, and writes down each house that it visits. A sweep goes on to its end: each visits the houses in
    /// ascending order, and passes over those that do not wait, since they strike nothing. A visit of a sweep that struck
    /// anything makes all houses wait.
    pub(crate) fn run(&mut self, rules: &R) -> Taken
        requires fits { FitsIn (needs_of (R.system rules.now)) self.old.made }
        requires board_of { IsBoardOf (R.system rules.now) self.old.board }
        requires alive { IsAlive (R.system rules.now) (has self.old.board) }
        requires rested { IsRested (R.system rules.now) (has self.old.board)
            (is_waiting self.old.waits) }
        ensures closing { IsClosedFrom (R.system rules.now) (is_queue R.MODE) self.old result
            self.new }
        ensures room { SameRoom self.old self.new }
    {
        let by_queue = by_queue::<R>();
        let mut turns = usize::from(!by_queue);
        let (mut struck, mut dead) = (false, false);
        let mut from = 0;
        while let Some(house) = next_around(&self.waits, from, rules.houses()) {
            let begins = by_queue | (house < from);
            if dead & begins {
                return report::<R>(dead, turns, struck);
            }
            self.note(turns, house);
            turns += usize::from(begins);
            from = house + 1;
            let effect = self.step(rules, house);
            struck = (struck & !begins) | effect.struck;
            dead |= effect.dead;
        }
        report::<R>(dead, turns, struck)
    }

    /// Whether the grid of the full board is a solution. It is written to `grid`.
    pub(crate) fn accept(&mut self, rules: &R, grid: &mut Grid) -> bool
        requires fits { FitsIn (needs_of (R.system rules.now)) self.old.made }
        requires full { IsFull (R.system rules.now) (has self.old.board) }
        requires long { length grid.old ≡ (R.system rules.now).cells }
        ensures solution { result ≡ is_solved (R.system rules.now) (has self.old.board) }
        ensures grid { grid.new ≡ own_grid (R.system rules.now) (has self.old.board) }
        ensures long { length grid.new ≡ (R.system rules.now).cells }
        ensures same { self.new ≡ self.old }
    {
        write_grid(&self.board, rules.cells(), grid);
        rules.accept(&mut self.scratch, grid)
    }
}
