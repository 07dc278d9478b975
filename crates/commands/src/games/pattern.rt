//! Pattern, as the commands play it.
ghost use Rattle.std.specs.Prelude.{◌+◌};
ghost use Rattle.commands.specs.Common.{line_rules};
ghost use Rattle.commands.specs.PatternFacts.{pattern_facts};

use crate::answers::check_reply::{correct_reply, wrong_line_reply};
use crate::answers::decimal::push_numbered;
use crate::answers::reply::Reply;
use crate::answers::status::RunResult;
use crate::check::checked::Checked;
use crate::ends::Sink;
use crate::generate::Recipe;
use crate::generate::makable::{Makable, Unmade};
use crate::generate::seed::generator;
use crate::grade::grades::{GradeOptions, GradedRules};
use crate::grade::{Attempt, Graded};
use crate::played::Played;
use crate::solve::solvable::Solvable;
use gameid_core::{Game, IdFault, PatternPuzzle, read_pattern, read_size, write_pattern};
use grid_core::{Grid, Size};
use maker_core::{Made, make_pattern};
use pattern_core::{PatternFault, PatternLines, check_pattern};
use std::alloc::{AllocError, Global};

impl Played for PatternPuzzle {
    ghost game = { pattern_facts.game };

    fn read_id(alloc: Global, id: &[u8]) -> Result<PatternPuzzle, IdFault> {
        read_pattern(alloc, id)
    }

    fn write_id(&self, alloc: Global) -> Result<String, AllocError> {
        write_pattern(alloc, self)
    }
}

impl Solvable for PatternPuzzle {
    type Search = PatternLines;

    ghost meaning = { λ search. line_rules search.pattern };

    ghost named = { λ p. p.size.w + p.size.h };

    #[tactic(auto, using(crate::proofs::SearchedPuzzles::pattern_accepted))]
    fn rules(&self, alloc: Global) -> Result<PatternLines, AllocError> {
        PatternLines::new(alloc, self)
    }

    fn push_name(&self, number: usize, text: &mut String) -> Result<(), AllocError> {
        let w = usize::from(self.size().w());
        if number < w {
            push_numbered(text, "column ", number)
        } else {
            push_numbered(text, "row ", number - w)
        }
    }
}

impl Checked for PatternPuzzle {
    fn check_reply(&self, alloc: Global, grid: &Grid) -> Result<Reply, AllocError> {
        match check_pattern(self, grid) {
            None => correct_reply(alloc),
            Some(PatternFault::Column(x)) => wrong_line_reply(alloc, "column ", x),
            Some(PatternFault::Row(y)) => wrong_line_reply(alloc, "row ", y),
        }
    }
}

impl Graded for PatternPuzzle {
    fn say_grade<O: Sink>(
        &self,
        alloc: Global,
        options: GradeOptions,
        output: &mut O,
    ) -> RunResult {
        let lines = self.rules(alloc)?;
        let set = GradedRules::Lines;
        let attempt = Attempt { set, options };
        attempt.say_by(alloc, self, &lines, output)
    }
}

impl Makable for PatternPuzzle {
    fn make(alloc: Global, size: &[u8], recipe: Recipe) -> Result<Made<PatternPuzzle>, Unmade> {
        let size = read_size(Game::Pattern, size)?;
        let size = Size::new(size.w, size.h).unwrap();
        let mut rng = generator(recipe.seed);
        let black = recipe.black.value;
        Ok(make_pattern(alloc, size, black, &mut rng, recipe.limits)?)
    }
}
