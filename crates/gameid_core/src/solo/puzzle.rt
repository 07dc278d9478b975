//! The puzzles of Solo.

ghost use Rattle.std.specs.Prelude.{◌≡◌, ◌<◌, ◌≤◌, ◌*◌, length, slice_index, slice_set, replicate, IfOk};
ghost use Rattle.gameid_core.specs.Common.{IsSolo, Solo, max_numbers, solo_n, solo_puzzle};

use grid_core::Fixed;
use std::alloc::{AllocError, Global};
use std::marker::Model;

/// `c` columns and `r` rows of sub-blocks, and the given numbers of the grid, which has `n = c * r`
/// columns and rows, `n` at most `MAX_NUMBERS`. Each block is `r` cells wide and `c` cells tall. In
/// Solo X both main diagonals, too, hold every number once.
#[derive(Debug, Drop)]
pub struct SoloPuzzle {
    pub(crate) c: u8,
    pub(crate) r: u8,
    pub(crate) x: bool,
    pub(crate) givens: Fixed<u8>,
}

impl Model for SoloPuzzle {
    ghost use Rattle.gameid_core.specs.Puzzles.{Solo, IsSolo, solo_puzzle};

    ghost Value = { Solo };

    ghost view = { λ p. solo_puzzle p.c p.r p.x p.givens.items };

    ghost invariant = { λ p. IsSolo (solo_puzzle p.c p.r p.x p.givens.items) };
}

impl SoloPuzzle {
    /// The puzzle of that size without givens, of Solo X where `x` holds.
    pub fn blank(alloc: Global, c: u8, r: u8, x: bool) -> Result<SoloPuzzle, AllocError>
        requires c_low { 2 ≤ c }
        requires r_low { 2 ≤ r }
        requires n_high { c * r ≤ max_numbers }
        ensures { IfOk result (λ p. p ≡ solo_puzzle c r x (replicate ((c * r) * (c * r)) 0)) }
    {
        let n = usize::from(c) * usize::from(r);
        let givens = Fixed::copies(alloc, 0u8, n * n)?;
        Ok(SoloPuzzle { c, r, x, givens })
    }

    /// A copy of the puzzle.
    pub fn copy(&self, alloc: Global) -> Result<SoloPuzzle, AllocError>
        ensures same { IfOk result (λ p. p ≡ self.now) }
        ensures lawful { IsSolo self.now }
    {
        Ok(SoloPuzzle {
            c: self.c,
            r: self.r,
            x: self.x,
            givens: Fixed::of(self.givens().to_vec(alloc)?),
        })
    }

    /// The number of columns of sub-blocks, which is the height of a block.
    pub fn c(&self) -> u8
        ensures value { result ≡ self.now.c }
        ensures lawful { IsSolo self.now }
    {
        self.c
    }

    /// The number of rows of sub-blocks, which is the width of a block.
    pub fn r(&self) -> u8
        ensures value { result ≡ self.now.r }
        ensures lawful { IsSolo self.now }
    {
        self.r
    }

    /// Whether both main diagonals, too, hold every number once, as in Solo X.
    pub fn x(&self) -> bool
        ensures value { result ≡ self.now.x }
        ensures lawful { IsSolo self.now }
    {
        self.x
    }

    /// How many numbers there are, which is also the number of cells of a row, of a column and of a
    /// block.
    pub fn n(&self) -> u8
        ensures value { result ≡ solo_n self.now }
        ensures lawful { IsSolo self.now }
    {
        self.c * self.r
    }

    /// The given number at a place, from 1 to `n`, or 0 for a blank cell. Places go row by row from
    /// the top left.
    pub fn given(&self, place: usize) -> u8
        requires { place < length self.now.givens }
        ensures value { result ≡ slice_index self.now.givens place }
        ensures range { result ≤ solo_n self.now }
    {
        self.givens[place]
    }

    /// Gives a cell a number, or blanks it by 0. Every other cell stays as it is.
    pub fn set_given(&mut self, place: usize, value: u8)
        requires place { place < length self.old.givens }
        requires value { value ≤ solo_n self.old }
        ensures { self.new ≡ record self.old { givens = slice_set self.old.givens place value } }
    {
        self.givens[place] = value;
    }

    /// The givens by place.
    pub(crate) fn givens(&self) -> &[u8]
        ensures value { result.now ≡ self.now.givens }
        ensures lawful { IsSolo self.now }
    {
        &self.givens
    }
}
