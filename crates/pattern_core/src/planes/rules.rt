//! The lines of a puzzle, as rules that are searched on planes: by a queue.

ghost use Rattle.std.specs.Prelude.{◌≡◌, ◌≤◌, refl};

use crate::line_scratch::LineScratch;
use crate::lines::PatternLines;
use crate::planes::close::close;
use engine_core::{BinaryRules, Needs, PlaneNotes, PlanePosition, PlaneRules, Searchable, Taken};
use grid_core::{Grid, Planes, Size, Word};
use std::alloc::{AllocError, Global};

/// What is kept beside planes: nothing.
#[derive(Drop)]
pub struct NoNotes {}

impl BinaryRules for PatternLines {
    ghost use Rattle.pattern_core.specs.LineLaws.{line_rules-alive};

    ghost extent = { λ r. r.pattern.size };

    ghost all_short = { λ needs. needs.scope ≤ 64 };

    fn size(&self) -> Size {
        PatternLines::size(self)
    }

    fn are_short(&self, made: Needs) -> bool {
        made.scope <= 64
    }

    ghost two = { λ _. refl };

    ghost cells_are = { λ _. refl };

    ghost alive = { λ r. line_rules-alive r.pattern };
}

impl<W: Word> PlaneNotes<W, PatternLines> for NoNotes {
    ghost fits = { λ _ _. Unit {0} };

    ghost written = { λ _ _. Unit {0} };

    fn new(_alloc: Global, _made: Needs) -> Result<NoNotes, AllocError> {
        Ok(NoNotes {})
    }

    fn start(&mut self, planes: &mut Planes<W>, rules: &PatternLines) {
        planes.begin(PatternLines::size(rules));
    }

    fn close(
        &mut self,
        planes: &mut Planes<W>,
        rules: &PatternLines,
        scratch: &mut LineScratch,
        from: Option<usize>,
    ) -> Taken {
        close(planes, rules, from, scratch)
    }

    ghost fits_smaller = { λ _ _ _ _ _. tt };
}

impl PlaneRules for PatternLines {
    type Short = NoNotes;

    type Long = NoNotes;

    #[tactic(auto, using(crate::proofs::FaultLemmas::closed_solution))]
    fn completes(&self, _scratch: &mut LineScratch, _grid: &Grid) -> bool {
        true
    }
}

impl Searchable for PatternLines {
    type Position = PlanePosition<PatternLines>;
}
