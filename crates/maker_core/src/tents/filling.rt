//! Fillings of Tents: a tree beside each tent.

ghost use Rattle.std.specs.Prelude.{◌≡◌, ◌<◌, ◌*◌, IfOk, true, length};
ghost use Rattle.grid_core.specs.Grids.{IsGrid};
ghost use Rattle.maker_core.specs.Draws.{IsDrawnBy};
ghost use Rattle.maker_core.specs.SoloFilling.{IsOrder};
ghost use Rattle.maker_core.specs.TentMaking.{IsSolvedFilling, no_tents, is_free, free_cells_beside, may_have_tent, place_tent as tent_put, tent_filling};
ghost use Rattle.maker_core.specs.TentSteps.{AreTaken, IsCellTaken, IsTentPlaced, IsTentTaken};

use crate::draws::{draw, order};
use arrayvec::ArrayVec;
use fields_core::touches_tent;
use grid_core::{Grid, Size, step};
use rand_core::Rng;
use std::alloc::{AllocError, Global};

/// Trees and tents by place, 1 in each grid and 0 elsewhere, and how many tents stand.
#[derive(Drop)]
pub(crate) struct TentFilling {
    pub trees: Grid,
    pub tents: Grid,
    pub placed: usize,
}

/// Whether the cell has neither tree nor tent.
fn is_free(filling: &TentFilling, place: usize) -> bool
    requires trees { place < length filling.now.trees }
    requires tents { place < length filling.now.tents }
    ensures { result ≡ is_free filling.now place }
{
    filling.trees.get(place) == 0 && filling.tents.get(place) == 0
}

/// The cells beside the place that have neither tree nor tent: up, left, right, down.
#[tactic(auto, using(crate::proofs::TentsSolved::sides), unfolding(grid_core::specs::Regions::steps))]
fn free_cells(size: Size, filling: &TentFilling, place: usize) -> ArrayVec<usize, 4>
    requires trees { length filling.now.trees ≡ size.w * size.h }
    requires tents { length filling.now.tents ≡ size.w * size.h }
    requires place { place < size.w * size.h }
    ensures { result.items ≡ free_cells_beside size filling.now place }
{
    let mut places = ArrayVec::new();
    for direction in 0..4 {
        let other = match step(size, place, direction) {
            Some(other) => other,
            None => continue,
        };
        if !is_free(filling, other) {
            continue;
        }
        places.push(other);
    }
    places
}

/// Puts a tent into the cell and a tree into the one of the free cells beside it that a draw names.
#[tactic(auto, using(crate::proofs::TentsSolved::place_laws))]
fn place_tent<G: Rng>(
    rng: &mut G,
    size: Size,
    filling: &mut TentFilling,
    place: usize,
    free: &[usize],
)
    requires trees { length filling.old.trees ≡ size.w * size.h }
    requires tents { length filling.old.tents ≡ size.w * size.h }
    requires place { place < size.w * size.h }
    requires free { free.now ≡ free_cells_beside size filling.old place }
    requires some { 0 < length free.now }
    requires may { may_have_tent size filling.old place ≡ true }
    ensures drawn { IsDrawnBy (tent_put size filling.old place) G.stream
        rng.old rng.new filling.new }
    ensures placed { IsTentPlaced size filling.old place filling.new }
{
    let k = draw(rng, free.len() as u32);
    filling.trees.set(free[k as usize], 1);
    filling.tents.set(place, 1);
    filling.placed += 1;
}

/// Takes a cell while fewer tents stand than a fifth of the cells, rounded down. The cell becomes a tent if it has no
/// tree, touches no tent and has a free cell beside it.
fn take_cell<G: Rng>(rng: &mut G, size: Size, filling: &mut TentFilling, place: usize)
    requires trees { IsGrid (size.w * size.h) 2 filling.old.trees }
    requires tents { IsGrid (size.w * size.h) 2 filling.old.tents }
    requires place { place < size.w * size.h }
    ensures drawn { IsCellTaken size place filling.old filling.new G.stream rng.old rng.new }
    ensures taken { IsTentTaken size filling.old place filling.new }
{
    if filling.placed >= size.cells() / 5 {
        return;
    }
    if filling.trees.get(place) != 0 {
        return;
    }
    if touches_tent(size, &filling.tents, place) {
        return;
    }
    let free = free_cells(size, filling, place);
    if free.is_empty() {
        return;
    }
    place_tent(rng, size, filling, place, &free);
}

/// Takes the cells of the order in turn.
fn take_cells<G: Rng>(rng: &mut G, size: Size, filling: &mut TentFilling, order: &[usize])
    requires order { IsOrder (size.w * size.h) order.now }
    requires none { filling.old ≡ no_tents size }
    ensures drawn { AreTaken size order.now filling.new G.stream rng.old rng.new }
    ensures trees { IsGrid (size.w * size.h) 2 filling.new.trees }
    ensures tents { IsGrid (size.w * size.h) 2 filling.new.tents }
    ensures solved { IsSolvedFilling size filling.new }
{
    for k in 0..order.len() {
        take_cell(rng, size, filling, order[k]);
    }
}

/// A filling of Tents: the cells, listed by place and shuffled, are taken in turn.
#[tactic(auto, using(crate::proofs::TentsSolved::no_tents_is))]
pub(crate) fn fill_tents<G: Rng>(
    alloc: Global,
    rng: &mut G,
    size: Size,
) -> Result<TentFilling, AllocError>
    ensures drawn { IfOk result (IsDrawnBy (tent_filling size) G.stream rng.old rng.new) }
    ensures trees { IfOk result (λ filling. IsGrid (size.w * size.h) 2 filling.trees) }
    ensures tents { IfOk result (λ filling. IsGrid (size.w * size.h) 2 filling.tents) }
    ensures solved { IfOk result (IsSolvedFilling size) }
{
    let cells = size.cells();
    let places = order(alloc, rng, cells)?;
    let mut filling = TentFilling {
        trees: Grid::new(alloc, cells)?,
        tents: Grid::new(alloc, cells)?,
        placed: 0,
    };
    take_cells(rng, size, &mut filling, &places);
    Ok(filling)
}
