//! Tents, as the commands play it.
ghost use Rattle.commands.specs.Common.{tent_rules};
ghost use Rattle.commands.specs.TentsFacts.{tents_facts};

use crate::answers::check_reply::{
    correct_reply, wrong_line_reply, wrong_place_reply, wrong_reply,
};
use crate::answers::reply::Reply;
use crate::answers::status::RunResult;
use crate::check::checked::Checked;
use crate::ends::Sink;
use crate::generate::Recipe;
use crate::generate::makable::{Makable, Unmade};
use crate::generate::seed::generator;
use crate::grade::grades::{GradeOptions, GradedRules};
use crate::grade::{Attempt, Graded};
use crate::played::Played;
use crate::solve::solvable::Solvable;
use fields_core::{TentFault, TentRules, check_tents};
use gameid_core::{Game, IdFault, Printed, TentsPuzzle, read_size, read_tents, write_tents};
use grid_core::{Grid, Size};
use maker_core::{Made, make_tents};
use std::alloc::{AllocError, Global};

impl Played for TentsPuzzle {
    ghost game = { tents_facts.game };

    fn read_id(alloc: Global, id: &[u8]) -> Result<TentsPuzzle, IdFault> {
        read_tents(alloc, id)
    }

    fn write_id(&self, alloc: Global) -> Result<String, AllocError> {
        write_tents(alloc, self)
    }
}

impl Solvable for TentsPuzzle {
    type Search = TentRules;

    ghost meaning = { λ search. tent_rules search.puzzle };

    ghost named = { λ _. 1 };

    #[tactic(auto, using(crate::proofs::SearchedPuzzles::tents_accepted))]
    fn rules(&self, alloc: Global) -> Result<TentRules, AllocError> {
        TentRules::for_search(alloc, self)
    }

    #[tactic(auto, using(crate::proofs::SearchedPuzzles::tents_accepted))]
    fn visited_rules(&self, alloc: Global) -> Result<TentRules, AllocError> {
        TentRules::new(alloc, self)
    }

    fn push_name(&self, _number: usize, _text: &mut String) -> Result<(), AllocError> {
        Ok(())
    }
}

impl Checked for TentsPuzzle {
    fn check_reply(&self, alloc: Global, grid: &Grid) -> Result<Reply, AllocError> {
        let columns = self.columns();
        match check_tents(alloc, self, grid)? {
            None => correct_reply(alloc),
            Some(TentFault::Tree(place)) => wrong_place_reply(alloc, "tree ", columns, place),
            Some(TentFault::Touch(place)) => wrong_place_reply(alloc, "touch ", columns, place),
            Some(TentFault::Column(x)) => wrong_line_reply(alloc, "column ", x),
            Some(TentFault::Row(y)) => wrong_line_reply(alloc, "row ", y),
            Some(TentFault::Match) => wrong_reply(alloc, "match"),
        }
    }
}

impl Graded for TentsPuzzle {
    #[tactic(auto, using(crate::proofs::GradeLemmas::accepted_by))]
    fn say_grade<O: Sink>(
        &self,
        alloc: Global,
        options: GradeOptions,
        output: &mut O,
    ) -> RunResult {
        let local = self.visited_rules(alloc)?;
        let set = GradedRules::Local;
        let attempt = Attempt { set, options };
        attempt.say_by(alloc, self, &local, output)
    }
}

impl Makable for TentsPuzzle {
    fn make(alloc: Global, size: &[u8], recipe: Recipe) -> Result<Made<TentsPuzzle>, Unmade> {
        let size = read_size(Game::Tents, size)?;
        let size = Size::new(size.w, size.h).unwrap();
        let mut rng = generator(recipe.seed);
        Ok(make_tents(alloc, size, &mut rng, recipe.limits)?)
    }
}
