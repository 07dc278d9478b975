//! A pairing of the cells of a house with values that is found without a search.
#![tactic(auto, using(crate::proofs::LawSets::quick_laws))]

ghost use Rattle.std.specs.Prelude.{◌≡◌, ℕ, ◌+◌, ◌<◌, ◌≤◌, OnSome, [], length, true};
ghost use Rattle.grid_core.specs.Candidates.{max_values};
ghost use Rattle.solo_core.specs.Common.{has_bit as is_set};
ghost use Rattle.solo_core.specs.QuickPairings.{AllPaired, FirstPaired, OneMorePaired};

use crate::visits::bits::{all_below, first_bit, with_bit};
use crate::visits::graph::{CellValueGraph, MANY};
use arrayvec::ArrayVec;
use engine_core::has_bit;

/// Pairs the cells one after another: each with a free value, or with one whose cell has a free one. Says whether all
/// are paired so.
pub(crate) fn pair_quickly(graph: &CellValueGraph, mates: &mut ArrayVec<u8, MANY>) -> bool
    requires few { length graph.now.rest.now ≤ max_values }
    requires none { mates.old.items ≡ [] }
    ensures { result ≡ true → AllPaired graph.now mates.new.items }
{
    let mut free = all_below(graph.values);
    for i in 0..graph.rest.len() {
        match give(graph, i, free, mates) {
            None => return false,
            Some(value) => free &= !with_bit(0, value),
        }
    }
    true
}

/// Gives the cell a free value, or the value of one before it that has a free one. Says which one is free no more.
fn give(
    graph: &CellValueGraph,
    i: usize,
    free: u32,
    mates: &mut ArrayVec<u8, MANY>,
) -> Option<usize>
    requires few { length graph.now.rest.now ≤ max_values }
    requires i_in { i < length graph.now.rest.now }
    requires as_many { length mates.old.items ≡ i }
    requires below { (v : ℕ) → is_set free v ≡ true → v < graph.now.values }
    requires begun { FirstPaired graph.now i mates.old.items free }
    ensures more { OnSome result (length mates.new.items ≡ i + 1) }
    ensures on { OneMorePaired graph.now i mates.new.items free result }
{
    let set = graph.sets[usize::from(graph.rest[i])];
    if let Some(value) = first_bit(set & free) {
        mates.push(value as u8);
        return Some(value);
    }
    for j in 0..i {
        let mate = mates[j];
        if !has_bit(set, mate) {
            continue;
        }
        let other = graph.sets[usize::from(graph.rest[j])];
        if let Some(value) = first_bit(other & free) {
            mates[j] = value as u8;
            mates.push(mate);
            return Some(value);
        }
    }
    None
}
