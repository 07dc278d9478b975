//! The clues of a puzzle of Pattern, one after another.
#![tactic(auto, using(crate::proofs::LineLaws::clue_laws), unfolding(crate::specs::Clues::cut_at))]

ghost use Rattle.std.specs.Prelude.{◌≡◌, ◌<◌, ◌^◌, ◌++◌, ◌∷◌, [], IfOk, OnOk, length, slice_index, slice_index_or};
ghost use Rattle.gameid_core.specs.PatternText.{clue_ended, nothing_yet, with_more};

use std::alloc::{AllocError, Global};
use std::marker::Model;

/// Clues that are whole, and the numbers so far of the next. All numbers stand in one list, and
/// where those of each whole clue end in another.
#[derive(Debug)]
pub(crate) struct Clues {
    numbers: Vec<u8>,
    ends: Vec<usize>,
}

impl Drop for Clues {
    fn drop(self) {
        let Clues { numbers, ends } = self;
    }
}

impl Model for Clues {
    ghost use Rattle.std.specs.Prelude.{length};
    ghost use Rattle.gameid_core.specs.PatternText.{SoFar};
    ghost use Rattle.grid_core.specs.Pieces.{AreEnds};
    ghost use Rattle.gameid_core.specs.Clues.{cut_at};

    ghost Value = { SoFar };

    ghost view = { λ c. cut_at c.ends.items c.numbers.items };

    ghost invariant = { λ c. AreEnds (length c.numbers.items) 0 c.ends.items };
}

impl Clues {
    /// No clue, with room for so many clues of so many numbers together.
    pub(crate) fn new(alloc: Global, clues: usize, numbers: usize) -> Result<Clues, AllocError>
        ensures { IfOk result (λ c. c ≡ nothing_yet) }
    {
        Ok(Clues {
            numbers: Vec::with_capacity(alloc, numbers)?,
            ends: Vec::with_capacity(alloc, clues)?,
        })
    }

    /// Adds a number to the next clue.
    pub(crate) fn push(&mut self, number: u8) -> Result<(), AllocError>
        ensures { OnOk result (self.new ≡ with_more self.old (number ∷ [])) }
    {
        self.numbers.push(number)?;
        Ok(())
    }

    /// Ends the next clue.
    pub(crate) fn end(&mut self) -> Result<(), AllocError>
        ensures { OnOk result (self.new ≡ clue_ended self.old) }
    {
        self.ends.push(self.numbers.len())?;
        Ok(())
    }

    /// How many clues are whole.
    pub(crate) fn len(&self) -> usize
        ensures len { result ≡ length self.now.clues }
        ensures few { result < 2 ^ 63 }
    {
        self.ends.len()
    }

    /// The numbers of a whole clue.
    pub(crate) fn clue(&self, line: usize) -> &[u8]
        requires { line < length self.now.clues }
        ensures { result.now ≡ slice_index_or self.now.clues line [] }
    {
        let ends: &[usize] = &self.ends;
        &self.numbers[begin(ends, line)..ends[line]]
    }
}

/// Where a clue begins: where the one before ends.
fn begin(ends: &[usize], line: usize) -> usize
    requires { line < length ends.now }
    ensures { result ≡ slice_index (0 ∷ ends.now) line }
{
    if line == 0 { 0 } else { ends[line - 1] }
}
