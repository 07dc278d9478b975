//! What a visit of a crossing of a block and a line keeps.
#![tactic(auto, using(crate::proofs::LawSets::crossing_laws))]

ghost use Rattle.std.specs.Prelude.{◌≡◌, ℕ, ◌<◌, ◌≤◌, ◌&&◌, ◌||◌, not, length};
ghost use Rattle.grid_core.specs.Candidates.{max_values};
ghost use Rattle.solo_core.specs.Common.{has_bit as is_set, solo_n, IsDecided, IsSoloHouse};
ghost use Rattle.solo_core.specs.Crossing.{part_has, in_block_alone, in_line_alone, strikes_by_parts};
ghost use Rattle.solo_core.specs.RuleSets.{crossing_decides, crossings_of, AreShared};

use crate::houses::house::NamedHouse;
use crate::houses::numbers::crossing_at;
use crate::houses::places::{lies, place};
use crate::visits::bits::{with_bit_if, with_more_if};
use engine_core::has_bit;
use gameid_core::SoloPuzzle;

/// Decides what is kept of the sets of the crossing with the number.
pub(crate) fn keep_crossed(puzzle: &SoloPuzzle, number: usize, sets: &[u32], kept: &mut [u32])
    requires number_in { number < length (crossings_of puzzle.now) }
    requires as_many { length kept.old ≡ length sets.now }
    ensures { IsDecided (solo_n puzzle.now) (crossing_decides puzzle.now number) sets.now kept.new }
{
    let (block, line) = crossing_at(puzzle, number);
    keep_crossing(
        usize::from(puzzle.n()),
        shared(puzzle, block, line),
        sets,
        kept,
    );
}

/// Which of the block's cells are the line's too: bit `k` says it of the `k`-th.
fn shared(puzzle: &SoloPuzzle, block: usize, line: NamedHouse) -> u32
    requires block_in { block < solo_n puzzle.now }
    requires line_of { IsSoloHouse puzzle.now line }
    ensures { AreShared puzzle.now block line result }
{
    let mut bits = 0;
    for k in 0..usize::from(puzzle.n()) {
        let there = lies(puzzle, line, place(puzzle, NamedHouse::Block(block), k));
        bits = with_bit_if(bits, k, there);
    }
    bits
}

/// Decides what is kept of the sets of a crossing. The first `block` of its cells are the block's, of which those whose
/// bit is set in `shared` are the line's too; the others are the line's alone.
pub(crate) fn keep_crossing(block: usize, shared: u32, sets: &[u32], kept: &mut [u32])
    requires few { block ≤ max_values }
    requires as_many { length kept.old ≡ length sets.now }
    ensures { (n : ℕ) → IsDecided n (strikes_by_parts block (is_set shared)) sets.now kept.new }
{
    let in_block = values_in_block(block, shared, sets);
    let in_line = values_in_line(block, sets);
    for k in 0..sets.len() {
        let left = without_lost(sets[k], in_block, k >= block);
        kept[k] = without_lost(left, in_line, is_block_alone(block, shared, k));
    }
}

/// Whether the cell is in the block outside the line.
fn is_block_alone(block: usize, shared: u32, k: usize) -> bool
    requires { block ≤ max_values }
    ensures { result ≡ in_block_alone block (is_set shared) k }
{
    k < block && !has_bit(shared, k as u8)
}

/// The values of the block outside the line.
fn values_in_block(block: usize, shared: u32, sets: &[u32]) -> u32
    requires { block ≤ max_values }
    ensures { (v : ℕ) → is_set result v
        ≡ part_has (in_block_alone block (is_set shared)) sets.now v }
{
    let mut values = 0;
    for k in 0..sets.len() {
        values = with_more_if(values, sets[k], is_block_alone(block, shared, k));
    }
    values
}

/// The values of the line outside the block.
fn values_in_line(block: usize, sets: &[u32]) -> u32
    ensures { (v : ℕ) → is_set result v ≡ part_has (in_line_alone block) sets.now v }
{
    let mut values = 0;
    for k in 0..sets.len() {
        values = with_more_if(values, sets[k], k >= block);
    }
    values
}

/// The bits without those that `there` hasn't, where `on`.
fn without_lost(bits: u32, there: u32, on: bool) -> u32
    ensures { (v : ℕ) → is_set result v ≡ (is_set bits v && not (on && not (is_set there v))) }
{
    if on { bits & there } else { bits }
}
