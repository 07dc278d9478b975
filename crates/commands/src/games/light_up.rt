//! Light Up, as the commands play it.
ghost use Rattle.commands.specs.Common.{light_rules};
ghost use Rattle.commands.specs.LightFacts.{light_facts};

use crate::answers::check_reply::{correct_reply, wrong_place_reply};
use crate::answers::reply::Reply;
use crate::answers::status::RunResult;
use crate::check::checked::Checked;
use crate::ends::Sink;
use crate::generate::Recipe;
use crate::generate::makable::{Makable, Unmade};
use crate::generate::seed::generator;
use crate::grade::grades::{GradeOptions, GradedRules};
use crate::grade::{Attempt, Graded};
use crate::played::Played;
use crate::solve::solvable::Solvable;
use fields_core::{LightFault, LightRules, check_lights};
use gameid_core::{Game, IdFault, LightPuzzle, Printed, read_lights, read_size, write_lights};
use grid_core::{Grid, Size};
use maker_core::{Made, make_lights};
use std::alloc::{AllocError, Global};

impl Played for LightPuzzle {
    ghost game = { light_facts.game };

    fn read_id(alloc: Global, id: &[u8]) -> Result<LightPuzzle, IdFault> {
        read_lights(alloc, id)
    }

    fn write_id(&self, alloc: Global) -> Result<String, AllocError> {
        write_lights(alloc, self)
    }
}

impl Solvable for LightPuzzle {
    type Search = LightRules;

    ghost meaning = { λ search. light_rules search.puzzle };

    ghost named = { λ _. 1 };

    #[tactic(auto, using(crate::proofs::SearchedPuzzles::light_accepted))]
    fn rules(&self, alloc: Global) -> Result<LightRules, AllocError> {
        LightRules::for_search(alloc, self)
    }

    #[tactic(auto, using(crate::proofs::SearchedPuzzles::light_accepted))]
    fn visited_rules(&self, alloc: Global) -> Result<LightRules, AllocError> {
        LightRules::new(alloc, self)
    }

    fn push_name(&self, _number: usize, _text: &mut String) -> Result<(), AllocError> {
        Ok(())
    }
}

impl Checked for LightPuzzle {
    fn check_reply(&self, alloc: Global, grid: &Grid) -> Result<Reply, AllocError> {
        let columns = self.columns();
        match check_lights(self, grid) {
            None => correct_reply(alloc),
            Some(LightFault::Black(place)) => wrong_place_reply(alloc, "black ", columns, place),
            Some(LightFault::Number(place)) => wrong_place_reply(alloc, "number ", columns, place),
            Some(LightFault::Seen(place)) => wrong_place_reply(alloc, "seen ", columns, place),
            Some(LightFault::Dark(place)) => wrong_place_reply(alloc, "dark ", columns, place),
        }
    }
}

impl Graded for LightPuzzle {
    fn say_grade<O: Sink>(
        &self,
        alloc: Global,
        options: GradeOptions,
        output: &mut O,
    ) -> RunResult {
        let local = self.visited_rules(alloc)?;
        let set = GradedRules::Local;
        let attempt = Attempt { set, options };
        attempt.say_by(alloc, self, &local, output)
    }
}

impl Makable for LightPuzzle {
    fn make(alloc: Global, size: &[u8], recipe: Recipe) -> Result<Made<LightPuzzle>, Unmade> {
        let size = read_size(Game::LightUp, size)?;
        let size = Size::new(size.w, size.h).unwrap();
        let mut rng = generator(recipe.seed);
        let black = recipe.black.value;
        Ok(make_lights(alloc, size, black, &mut rng, recipe.limits)?)
    }
}
