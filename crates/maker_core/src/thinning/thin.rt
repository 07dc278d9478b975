//! Taking clues away while the puzzle keeps its one solution.

ghost use Rattle.std.specs.Prelude.{◌≡◌, [], IfOk, OnOk, IsTrue, IsPermutation};
ghost use Rattle.engine_core.specs.RuleSystem.{FitsIn, needs_of};
ghost use Rattle.maker_core.specs.Thinning.{AreShuffledClues, DrawsClues, has_clue, clue_places, IsThinnedFrom, IsOnly, HasReasons};
ghost use Rattle.maker_core.specs.Made.{HasOne, TellsOne};
ghost use Rattle.maker_core.specs.ThinningSteps.{IsLeft, IsAsked, IsThinning, reasons_from};

use crate::draws::shuffle;
use crate::made::{Kept, Made, Why};
use crate::thinning::clued::Clued;
use engine_core::{Searchable, Store, Verdict};
use grid_core::Grid;
use rand_core::Rng;
use std::alloc::{AllocError, Global};

/// Tries the clues of a puzzle with all clues once each, in an order that is drawn, and takes away those that it can do
/// without. A clue is left if without it the search finds more solutions than the answer or gives up.
pub(crate) fn thin<P: Clued, G: Rng>(
    alloc: Global,
    puzzle: P,
    answer: Grid,
    rng: &mut G,
    budget: u64,
) -> Result<Made<P>, AllocError>
where
    P::Search: Searchable,
    requires means { (rules : P.Search) → P.Search.system rules ≡ P.meaning rules }
    requires all { puzzle ≡ P.game.all_clues puzzle answer }
    requires only { IsOnly (P.game.rules puzzle) answer }
    requires found { TellsOne (P.game.rules puzzle) budget answer }
    ensures drawn { OnOk result (DrawsClues P.game puzzle G.stream rng.old rng.new) }
    ensures answer { IfOk result (λ made. made.answer ≡ answer) }
    ensures within { IfOk result (λ made. IsThinnedFrom P.game made.puzzle puzzle) }
    ensures only { IfOk result (λ made. IsOnly (P.game.rules made.puzzle) answer) }
    ensures found { IfOk result (λ made. TellsOne (P.game.rules made.puzzle) budget answer) }
    ensures reasons { IfOk result (HasReasons P.game budget answer) }
{
    let mut puzzle = puzzle;
    let order = shuffled_clues(alloc, &puzzle, rng)?;
    let whys = try_clues(alloc, &mut puzzle, &order, budget)?;
    let kept = reasons(alloc, &whys)?;
    Ok(Made {
        puzzle,
        answer,
        kept,
    })
}

/// The cells that have a clue, by place.
#[tactic(auto, using(crate::proofs::WrittenGrids::filter_laws))]
fn clue_list<P: Clued>(alloc: Global, puzzle: &P) -> Result<Vec<usize>, AllocError>
    ensures { IfOk result (λ places. places.items ≡ clue_places P.game puzzle.now) }
{
    let mut places = Vec::new(alloc);
    for place in 0..puzzle.cells() {
        if puzzle.has_clue(place) {
            places.push(place)?;
        }
    }
    Ok(places)
}

/// The cells that have a clue, in an order that is drawn.
fn shuffled_clues<P: Clued, G: Rng>(
    alloc: Global,
    puzzle: &P,
    rng: &mut G,
) -> Result<Vec<usize>, AllocError>
    ensures drawn { IfOk result
        (AreShuffledClues P.game puzzle.now G.stream rng.old rng.new) }
    ensures permutation { IfOk result
        (λ v. IsPermutation (clue_places P.game puzzle.now) v.items) }
{
    let mut order = clue_list(alloc, puzzle)?;
    shuffle(rng, &mut order);
    Ok(order)
}

/// The memory that a search of the puzzle needs.
fn store_for<P: Clued>(alloc: Global, puzzle: &P) -> Result<Store<P::Search>, AllocError>
where
    P::Search: Searchable,
    requires { (rules : P.Search) → P.Search.system rules ≡ P.meaning rules }
    ensures { IfOk result
        (λ store. FitsIn (needs_of (P.game.rules puzzle.now)) store.made) }
{
    let rules = puzzle.search(alloc)?;
    Store::new(alloc, &rules)
}

/// Tries the clues in this order. Gives for each cell why its clue is left, if it is.
fn try_clues<P: Clued>(
    alloc: Global,
    puzzle: &mut P,
    order: &[usize],
    budget: u64,
) -> Result<Vec<Option<Why>>, AllocError>
where
    P::Search: Searchable,
    requires means { (rules : P.Search) → P.Search.system rules ≡ P.meaning rules }
    requires one { HasOne (P.game.rules puzzle.old) budget }
    requires order { IsPermutation (clue_places P.game puzzle.old) order.now }
    ensures { IfOk result
        (λ whys. IsThinning P.game budget puzzle.old puzzle.new whys.items []) }
{
    let mut store = store_for(alloc, puzzle)?;
    let mut whys = vec![in alloc; None; puzzle.cells()]?;
    for &place in order {
        whys[place] = try_clue(alloc, puzzle, &mut store, place, budget)?;
    }
    Ok(whys)
}

/// Takes a clue away for good if the puzzle without it still has one solution; else leaves it and says why.
fn try_clue<P: Clued>(
    alloc: Global,
    puzzle: &mut P,
    store: &mut Store<P::Search>,
    place: usize,
    budget: u64,
) -> Result<Option<Why>, AllocError>
where
    P::Search: Searchable,
    requires means { (rules : P.Search) → P.Search.system rules ≡ P.meaning rules }
    requires clue { IsTrue (has_clue P.game puzzle.old place) }
    requires one { HasOne (P.game.rules puzzle.old) budget }
    requires fits { FitsIn (needs_of (P.game.rules puzzle.old)) store.old.made }
    ensures left { IfOk result (λ why. IsLeft P.game place puzzle.old puzzle.new why) }
    ensures asked { IfOk result (λ why. IsAsked P.game budget place puzzle.old why) }
    ensures made { store.new.made ≡ store.old.made }
{
    let clue = puzzle.take_clue(place);
    let rules = puzzle.search(alloc)?;
    let why = match store.solve(&rules, budget) {
        Verdict::One => return Ok(None),
        Verdict::Several => Why::Needed,
        Verdict::GaveUp { .. } => Why::Budget,
        Verdict::None => unreachable!(),
    };
    puzzle.put_clue(place, clue);
    Ok(Some(why))
}

/// The reasons that were written, by place.
#[tactic(auto, unfolding(crate::specs::ThinningSteps::reasons_from))]
fn reasons(alloc: Global, whys: &[Option<Why>]) -> Result<Vec<Kept>, AllocError>
    ensures { IfOk result (λ kept. kept.items ≡ reasons_from 0 whys.now) }
{
    let mut kept = Vec::new(alloc);
    for place in 0..whys.len() {
        if let Some(why) = whys[place] {
            kept.push(Kept { place, why })?;
        }
    }
    Ok(kept)
}
