//! The command `solve` of one ID: the verdict of a search, and its answer.
ghost use Rattle.std.specs.Prelude.{◌≡◌, IfOk};
ghost use Rattle.gameid_core.specs.TentsText.{cells_in};
ghost use Rattle.commands.specs.Common.{FitsIn, needs_of};
ghost use Rattle.commands.specs.Allowed.{AllowsSolve};
ghost use Rattle.commands.specs.Games.{game_of};
ghost use Rattle.commands.specs.Replies.{HasTrueVerdict, SaysVerdict, answer_in};

pub mod solvable;

use crate::answers::reply::{Reply, grid_reply, id_refused, words_reply};
use crate::answers::status::Status;
use crate::games::{Stores, by_game};
use crate::solve::solvable::Solvable;
use engine_core::{Searchable, Store, Verdict};
use gameid_core::{Game, IdFault, Printed, push_grid};
use std::alloc::{AllocError, Global};

/// Whether the first store has as many cells as the second, and a longer scope.
fn is_roomier<R: Searchable>(first: &Store<R>, second: &Store<R>) -> bool {
    let (one, other) = (first.sizes(), second.sizes());
    one.frames == other.frames && one.scope > other.scope
}

/// Keeps the store that was made, unless the one that is kept is roomier.
fn keep_roomier<R: Searchable>(kept: &mut Option<Store<R>>, made: Store<R>) {
    let stays = match kept {
        Some(store) => is_roomier(store, &made),
        None => false,
    };
    if !stays {
        *kept = Some(made);
    }
}

/// The answer that tells the verdict of a search by the rules, in the memory of a text.
fn verdict_reply<P: Printed, R: Searchable>(
    store: &mut Store<R>,
    puzzle: &P,
    rules: &R,
    budget: u64,
    text: String,
) -> Result<Reply, AllocError>
    requires fits { FitsIn (needs_of (R.system rules.now)) store.old.made }
    requires cells { (R.system rules.now).cells ≡ cells_in (P.extent puzzle.now) }
    requires values { (R.system rules.now).values ≡ P.value_count puzzle.now }
    ensures answer { IfOk result
        (SaysVerdict P.Printed puzzle.now (R.system rules.now) budget) }
    ensures right { IfOk result (λ _. HasTrueVerdict (R.system rules.now) budget) }
{
    match store.solve(rules, budget) {
        Verdict::None => words_reply(text, "none\n", Status::Wrong),
        Verdict::One => {
            let found = store.first().unwrap();
            grid_reply(text, "one\n", Status::Fine, puzzle, found)
        }
        Verdict::Several => {
            let found = store.first().unwrap();
            let mut reply = grid_reply(text, "several\n", Status::Several, puzzle, found)?;
            reply.text.push_str("\n")?;
            push_grid(&mut reply.text, puzzle, store.second().unwrap())?;
            Ok(reply)
        }
        Verdict::GaveUp { found: true } => {
            let found = store.first().unwrap();
            grid_reply(text, "gave up\n", Status::GaveUp, puzzle, found)
        }
        Verdict::GaveUp { found: false } => words_reply(text, "gave up\n", Status::GaveUp),
    }
}

/// The answer that tells the verdict of a search by the rules, in the memory of a text. The search
/// works in a new store, which is kept then unless the old one is roomier. It isn't inlined, since
/// its large local would be cleared for each line.
#[inline(never)]
fn reply_in_new_store<P: Printed, R: Searchable>(
    alloc: Global,
    kept: &mut Option<Store<R>>,
    puzzle: &P,
    rules: &R,
    budget: u64,
    text: String,
) -> Result<Reply, AllocError>
    requires cells { (R.system rules.now).cells ≡ cells_in (P.extent puzzle.now) }
    requires values { (R.system rules.now).values ≡ P.value_count puzzle.now }
    ensures answer { IfOk result
        (SaysVerdict P.Printed puzzle.now (R.system rules.now) budget) }
    ensures right { IfOk result (λ _. HasTrueVerdict (R.system rules.now) budget) }
{
    let mut made = Store::new(alloc, rules)?;
    let reply = verdict_reply(&mut made, puzzle, rules, budget, text)?;
    keep_roomier(kept, made);
    Ok(reply)
}

/// The same, in the store that is kept if that fits, else in a new one.
fn searched_reply<P: Printed, R: Searchable>(
    alloc: Global,
    kept: &mut Option<Store<R>>,
    puzzle: &P,
    rules: &R,
    budget: u64,
    text: String,
) -> Result<Reply, AllocError>
    requires cells { (R.system rules.now).cells ≡ cells_in (P.extent puzzle.now) }
    requires values { (R.system rules.now).values ≡ P.value_count puzzle.now }
    ensures answer { IfOk result
        (SaysVerdict P.Printed puzzle.now (R.system rules.now) budget) }
    ensures right { IfOk result (λ _. HasTrueVerdict (R.system rules.now) budget) }
{
    if let Some(store) = kept {
        if store.fits(rules) {
            return verdict_reply(store, puzzle, rules, budget, text);
        }
    }
    reply_in_new_store(alloc, kept, puzzle, rules, budget, text)
}

/// The answer to an ID that is to be solved, as `solve_id` says.
fn solve_one<P: Solvable + Drop>(
    alloc: Global,
    kept: &mut Option<Store<P::Search>>,
    id: &[u8],
    budget: u64,
    text: String,
) -> Result<Reply, AllocError>
where
    P::Search: Searchable,
    requires means { (rules : P.Search) → P.Search.system rules ≡ P.meaning rules }
    ensures { IfOk result (λ r. AllowsSolve P.Played id.now budget (answer_in r)) }
{
    match P::read_id(alloc, id) {
        Ok(puzzle) => {
            let rules = puzzle.rules(alloc)?;
            searched_reply(alloc, kept, &puzzle, &rules, budget, text)
        }
        Err(IdFault::Memory) => Err(AllocError),
        Err(fault) => id_refused(text, fault),
    }
}

/// What is asked of an ID that is to be solved: its game, and how many trials there may be.
#[derive(Clone, Copy)]
pub struct Task {
    pub game: Game,
    pub budget: u64,
}

impl Stores {
    /// The answer to an ID that is to be solved: its first fault, or the verdict with its grids, in
    /// the memory of `text`, of which nothing else stays. The search works in the memory of the
    /// stores where that is enough, and in new memory where not. The new memory is left there for
    /// the next, unless what was there has as many cells and a longer scope.
    pub fn solve_id(
        &mut self,
        alloc: Global,
        task: Task,
        id: &[u8],
        text: String,
    ) -> Result<Reply, AllocError>
        ensures { IfOk result
            (λ r. AllowsSolve (game_of task.game) id.now task.budget (answer_in r)) }
    {
        let budget = task.budget;
        by_game!(task.game, solve_one::<_>(alloc, &mut self._, id, budget, text))
    }
}
