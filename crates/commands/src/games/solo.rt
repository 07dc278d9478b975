//! Solo, as the commands play it. It is graded by three rule sets in turn, and else by a search.
ghost use Rattle.std.specs.Prelude.{◌+◌, ◌≤◌, OnOk, length, string_len};
ghost use Rattle.gameid_core.specs.GridTexts.{Adds};
ghost use Rattle.commands.specs.Common.{houses_rules, scopes_of};
ghost use Rattle.commands.specs.SoloFacts.{house_text, scope_text, solo_facts};

use crate::answers::check_reply::{correct_reply, wrong_line_reply, wrong_place_reply};
use crate::answers::decimal::push_numbered;
use crate::answers::reply::Reply;
use crate::answers::status::RunResult;
use crate::check::checked::Checked;
use crate::ends::Sink;
use crate::generate::Recipe;
use crate::generate::makable::{Makable, Unmade};
use crate::generate::seed::generator;
use crate::grade::grades::{GradeOptions, GradedRules};
use crate::grade::{Attempt, Graded};
use crate::played::Played;
use crate::solve::solvable::{MAX_NAME, Solvable};
use gameid_core::{Game, IdFault, Printed, SizeRead, SoloPuzzle, read_size, read_solo, write_solo};
use grid_core::Grid;
use maker_core::{Made, make_solo};
use solo_core::{
    NamedHouse, SoloCrossings, SoloFault, SoloHouses, SoloSingles, VisitName, check_solo,
    visit_name,
};
use std::alloc::{AllocError, Global};

impl Played for SoloPuzzle {
    ghost game = { solo_facts.game };

    fn read_id(alloc: Global, id: &[u8]) -> Result<SoloPuzzle, IdFault> {
        read_solo(alloc, id)
    }

    fn write_id(&self, alloc: Global) -> Result<String, AllocError> {
        write_solo(alloc, self)
    }
}

impl Solvable for SoloPuzzle {
    type Search = SoloHouses;

    ghost meaning = { λ search. houses_rules search.set.puzzle };

    ghost named = { λ p. length (scopes_of p) };

    fn rules(&self, alloc: Global) -> Result<SoloHouses, AllocError> {
        SoloHouses::new(alloc, self)
    }

    fn push_name(&self, number: usize, text: &mut String) -> Result<(), AllocError> {
        push_scope(text, visit_name(self, number))
    }
}

impl Checked for SoloPuzzle {
    fn check_reply(&self, alloc: Global, grid: &Grid) -> Result<Reply, AllocError> {
        let columns = self.columns();
        match check_solo(self, grid) {
            None => correct_reply(alloc),
            Some(SoloFault::Given(place)) => wrong_place_reply(alloc, "given ", columns, place),
            Some(SoloFault::Row(y)) => wrong_line_reply(alloc, "row ", y),
            Some(SoloFault::Column(x)) => wrong_line_reply(alloc, "column ", x),
            Some(SoloFault::Block(b)) => wrong_line_reply(alloc, "block ", b),
            Some(SoloFault::Diagonal(d)) => wrong_line_reply(alloc, "diagonal ", d),
        }
    }
}

impl Graded for SoloPuzzle {
    fn say_grade<O: Sink>(
        &self,
        alloc: Global,
        options: GradeOptions,
        output: &mut O,
    ) -> RunResult {
        let singles = SoloSingles::new(alloc, self)?;
        let set = GradedRules::Singles;
        let attempt = Attempt { set, options };
        if let Some(said) = attempt.say_if_settled(alloc, self, &singles, output) {
            return said;
        }
        let houses = SoloHouses::new(alloc, self)?;
        let set = GradedRules::Houses;
        let attempt = Attempt { set, options };
        if let Some(said) = attempt.say_if_settled(alloc, self, &houses, output) {
            return said;
        }
        let crossings = SoloCrossings::new(alloc, self)?;
        let set = GradedRules::Crossings;
        let attempt = Attempt { set, options };
        attempt.say_by(alloc, self, &crossings, output)
    }
}

/// Most bytes of the name of a house: the longest kind, a space and a number.
const MAX_HOUSE_NAME: usize = 29;

/// Adds the name of a house: its kind, and its number among those.
fn push_house(text: &mut String, house: NamedHouse) -> Result<(), AllocError>
    ensures name { OnOk result (Adds (house_text house) text.old text.new) }
    ensures short { OnOk result (string_len text.new ≤ string_len text.old + MAX_HOUSE_NAME) }
{
    match house {
        NamedHouse::Row(y) => push_numbered(text, "row ", y),
        NamedHouse::Column(x) => push_numbered(text, "column ", x),
        NamedHouse::Block(b) => push_numbered(text, "block ", b),
        NamedHouse::Diagonal(d) => push_numbered(text, "diagonal ", d),
    }
}

/// Adds the name of a house, or those of a block and of a line that it meets.
fn push_scope(text: &mut String, scope: VisitName) -> Result<(), AllocError>
    ensures name { OnOk result (Adds (scope_text scope) text.old text.new) }
    ensures short { OnOk result (string_len text.new ≤ string_len text.old + MAX_NAME) }
{
    match scope {
        VisitName::House(house) => push_house(text, house),
        VisitName::Crossing { block, line } => {
            push_house(text, NamedHouse::Block(block))?;
            text.push_str(" ")?;
            push_house(text, line)
        }
    }
}

impl Makable for SoloPuzzle {
    fn make(alloc: Global, size: &[u8], recipe: Recipe) -> Result<Made<SoloPuzzle>, Unmade> {
        let SizeRead { w, h, x } = read_size(Game::Solo, size)?;
        let mut rng = generator(recipe.seed);
        Ok(make_solo(alloc, w, h, x, &mut rng, recipe.limits)?)
    }
}
