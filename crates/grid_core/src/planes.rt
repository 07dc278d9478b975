//! A board of two values as planes of bits, with the trail of what was taken from it.
#![tactic(auto, using(crate::proofs::TakingLemmas::taking_laws))]

ghost use Rattle.std.specs.Prelude.{◌≡◌, ℕ, ◌+◌, ◌*◌, ◌/◌, ◌%◌, ◌<◌, ◌≤◌, length, nat_lt, true, IfOk};
ghost use Rattle.grid_core.specs.Candidates.{all_of};
ghost use Rattle.grid_core.specs.Words.{has_bit};
ghost use Rattle.grid_core.specs.Planes.{bit_of, planes_have, plane_cells, back_at, has_without, taking, ArePlanes, IsThere, IsFresh, IsFurther, IsBack, at_line, lines_beside, line_len, number_of};

pub(crate) mod line;
pub(crate) mod touched_lines;
pub(crate) mod trial;
pub(crate) mod turn;
pub(crate) mod word;

use crate::fixed::Fixed;
use crate::size::Size;
use line::{Change, Line};
use std::alloc::{AllocError, Global};
use std::marker::Model;
use turn::{turn_line, write_lines};
use word::Word;

/// A board of two values. For each value the cells that can have it stand as a word of bits for each row, and again as one
/// for each column: those of line `k` for the values 0 and 1 are the words `2 * k` and `2 * k + 1`.
#[derive(Drop)]
pub struct Planes<W: Word> {
    size: Size,
    rows: Fixed<W>,
    columns: Fixed<W>,
    changes: Fixed<Change<W>>,
    len: usize,
}

impl<W: Word> Model for Planes<W> {
    ghost use Rattle.grid_core.specs.Planes.{Layers, layers_of, ArePlanes};

    ghost Value = { Layers };

    ghost view = { λ p.
        layers_of W.bits p.size p.rows.items p.columns.items p.changes.items p.len };

    ghost invariant = { λ p. ArePlanes W.room
        (layers_of W.bits p.size p.rows.items p.columns.items p.changes.items p.len) };
}

impl<W: Word> Planes<W> {
    /// Planes of a grid in which each cell can have both values, with room for each step that can come.
    ///
    /// # Errors
    ///
    /// When memory was refused.
    pub fn new(alloc: Global, size: Size) -> Result<Planes<W>, AllocError>
        requires narrow { size.w ≤ W.room }
        requires low { size.h ≤ W.room }
        ensures fresh { IfOk result (λ p. IsFresh size (all_of (size.w * size.h) 2) p) }
        ensures room { IfOk result (λ p. length p.takings ≡ size.w * size.h * 2) }
    {
        let w = usize::from(size.w());
        let h = usize::from(size.h());
        let mut rows = Fixed::copies(alloc, W::none(), 2 * W::places())?;
        let mut columns = Fixed::copies(alloc, W::none(), 2 * W::places())?;
        write_lines(&mut rows, 0, h, W::all(w));
        write_lines(&mut columns, 0, w, W::all(h));
        let nothing = Change {
            line: Line::Row(0),
            value: 0,
            bits: W::none(),
        };
        Ok(Planes {
            size,
            rows,
            columns,
            changes: Fixed::copies(alloc, nothing, size.cells() * 2)?,
            len: 0,
        })
    }

    /// Begins with a board of this size in which each cell can have both values. It takes no memory.
    pub fn begin(&mut self, size: Size)
        requires narrow { size.w ≤ W.room }
        requires low { size.h ≤ W.room }
        requires few { size.w * size.h * 2 ≤ length self.old.takings }
        ensures fresh { IsFresh size (all_of (size.w * size.h) 2) self.new }
        ensures room { length self.new.takings ≡ length self.old.takings }
    {
        let w = usize::from(size.w());
        let h = usize::from(size.h());
        write_lines(&mut self.rows, usize::from(self.size.h()), h, W::all(w));
        write_lines(&mut self.columns, usize::from(self.size.w()), w, W::all(h));
        self.size = size;
        self.len = 0;
    }

    /// How many steps can be noted.
    pub fn room(&self) -> usize
        ensures { result ≡ length self.now.takings }
    {
        self.changes.len()
    }

    /// The size of the grid.
    pub fn size(&self) -> Size
        ensures value { result ≡ self.now.size }
        ensures lawful { ArePlanes W.room self.now }
    {
        self.size
    }

    /// All columns: the places of a row.
    pub fn columns(&self) -> W
        ensures { (x : ℕ) → has_bit (W.bits result) x ≡ nat_lt x self.now.size.w }
    {
        W::all(usize::from(self.size.w()))
    }

    /// All rows: the places of a column.
    pub fn rows(&self) -> W
        ensures { (y : ℕ) → has_bit (W.bits result) y ≡ nat_lt y self.now.size.h }
    {
        W::all(usize::from(self.size.h()))
    }

    /// The row and the column of a cell. Behind the last cell a row begins.
    pub fn split(&self, place: usize) -> (usize, usize)
        requires { place ≤ plane_cells self.now }
        ensures row { result.0 ≡ place / self.now.size.w }
        ensures column { result.1 ≡ place % self.now.size.w }
        ensures row_in { place < plane_cells self.now → result.0 < self.now.size.h }
        ensures column_in { result.1 < self.now.size.w }
        ensures lawful { ArePlanes W.room self.now }
    {
        let w = usize::from(self.size.w());
        (place / w, place % w)
    }

    /// The cells of a row that can have the value.
    pub fn row(&self, y: u8, value: u8) -> W
        requires row_in { y < self.now.size.h }
        requires value_in { value < 2 }
        ensures cells { (x : ℕ) → has_bit (W.bits result) x ≡ bit_of self.now.rows y value x }
        ensures within { (x : ℕ) → has_bit (W.bits result) x ≡ true → x < self.now.size.w }
        ensures lawful { ArePlanes W.room self.now }
    {
        self.rows[2 * usize::from(y) + usize::from(value)]
    }

    /// The cells of a column that can have the value.
    pub fn column(&self, x: u8, value: u8) -> W
        requires column_in { x < self.now.size.w }
        requires value_in { value < 2 }
        ensures cells { (y : ℕ) → has_bit (W.bits result) y ≡ bit_of self.now.rows y value x }
        ensures within { (y : ℕ) → has_bit (W.bits result) y ≡ true → y < self.now.size.h }
        ensures lawful { ArePlanes W.room self.now }
    {
        self.columns[2 * usize::from(x) + usize::from(value)]
    }

    /// The cells of a line that can have the value.
    pub fn line(&self, line: Line, value: u8) -> W
        requires line_in { number_of line < lines_beside self.now.size line }
        requires value_in { value < 2 }
        ensures cells { (k : ℕ) → has_bit (W.bits result) k ≡ at_line self.now line value k }
        ensures within { (k : ℕ) → has_bit (W.bits result) k ≡ true
            → k < line_len self.now.size line }
        ensures fits { line_len self.now.size line ≤ W.room }
        ensures lawful { ArePlanes W.room self.now }
    {
        match line {
            Line::Row(y) => self.row(y, value),
            Line::Column(x) => self.column(x, value),
        }
    }

    /// Whether the cell can have the value.
    pub fn has(&self, place: usize, value: u8) -> bool
        requires place_in { place < plane_cells self.now }
        requires value_in { value < 2 }
        ensures { result ≡ planes_have self.now place value }
    {
        let (y, x) = self.split(place);
        self.rows[2 * y + usize::from(value)].has(x)
    }

    /// How long the trail is: what `undo` takes to come back to the board as it is now.
    pub fn len(&self) -> usize
        ensures len { result ≡ self.now.len }
        ensures here { back_at self.now result ≡ planes_have self.now }
    {
        self.len
    }

    /// Takes the value from those of the cells of a line that can have it. It notes them where there are any.
    pub fn take(&mut self, line: Line, value: u8, bits: W)
        requires line_in { number_of line < lines_beside self.old.size line }
        requires value_in { value < 2 }
        ensures left { planes_have self.new ≡ has_without self.old (taking W.bits line value bits) }
        ensures further { IsFurther self.old self.new }
    {
        let there = self.line(line, value).both(bits);
        if there.is_some() {
            self.take_all(line, value, there);
        }
    }

    /// Takes the value from cells of a line, each of which can have it, and notes them.
    fn take_all(&mut self, line: Line, value: u8, bits: W)
        requires { IsThere self.old (taking W.bits line value bits) }
        ensures left { planes_have self.new ≡ has_without self.old (taking W.bits line value bits) }
        ensures further { IsFurther self.old self.new }
    {
        self.changes[self.len] = Change { line, value, bits };
        self.len += 1;
        turn_line(&mut self.rows, &mut self.columns, line, value, bits);
    }

    /// Takes the board back to when the trail had that length: each cell that lost a value since gets it back.
    pub fn undo(&mut self, len: usize)
        requires { len ≤ self.old.len }
        ensures { IsBack self.old self.new len }
    {
        while self.len > len {
            self.len -= 1;
            let change = self.changes[self.len];
            turn_line(
                &mut self.rows,
                &mut self.columns,
                change.line,
                change.value,
                change.bits,
            );
        }
    }
}
