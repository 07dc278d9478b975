//! What the rules of Light Up are to a search.
#![tactic(auto, using(crate::proofs::LawSets::light_rules_laws))]

ghost use Rattle.std.specs.Prelude.{◌≤◌, refl};

use crate::count::game::CountGame;
use crate::count::house::House;
use crate::count::name::Measured;
use crate::count::rules::CountRules;
use crate::light_up::cells::{columns, is_white};
use crate::light_up::check::check_lights;
use crate::light_up::houses::measure_lights;
use crate::light_up::light_house::{LightHouse, lit_told, number_told, run_told};
use crate::light_up::line::WhiteLine;
use crate::planes::light_up::light_notes::LightNotes;
use crate::planes::rules::{GridGame, PlaneGame};
use engine_core::Needs;
use gameid_core::{LightCell, LightPuzzle};
use grid_core::{Grid, Size};
use std::alloc::{AllocError, Global};

/// The rules of a puzzle of Light Up.
pub type LightRules = CountRules<LightPuzzle>;

impl CountGame for LightPuzzle {
    ghost use Rattle.fields_core.specs.Common.{light_cells, light_counts, light_house, light_kind};
    ghost use Rattle.std.specs.Prelude.{true};
    ghost use Rattle.fields_core.specs.KindLaws.{light-kinds};

    type Scratch = ();

    type Kind = LightHouse;

    ghost counts = { light_counts };

    ghost told = { light_house };

    ghost kind_of = { light_kind };

    ghost span_of = { λ p _. light_cells p };

    ghost flags = { true };

    ghost serves = { λ _ _. Unit {0} };

    fn again(&self, alloc: Global) -> Result<LightPuzzle, AllocError> {
        self.copy(alloc)
    }

    fn measured(&self) -> Measured {
        measure_lights(self)
    }

    fn kind(number: usize) -> LightHouse {
        match number {
            0 => LightHouse::Number,
            1 => LightHouse::Row,
            2 => LightHouse::Column,
            _ => LightHouse::Lit,
        }
    }

    fn span(&self, _kind: LightHouse) -> usize {
        LightPuzzle::size(self).cells()
    }

    fn tells(&self, kind: LightHouse, place: usize) -> bool {
        let w = columns(self);
        match kind {
            LightHouse::Number => matches!(self.cell(place), LightCell::Numbered(_)),
            LightHouse::Row => {
                is_white(self, place) && (place % w == 0 || !is_white(self, place - 1))
            }
            LightHouse::Column => {
                is_white(self, place) && (place / w == 0 || !is_white(self, place - w))
            }
            LightHouse::Lit => is_white(self, place),
        }
    }

    fn house(&self, kind: LightHouse, place: usize) -> House {
        let w = columns(self);
        let (x, y) = (place % w, place / w);
        match kind {
            LightHouse::Number => number_told(self, place),
            LightHouse::Row => run_told(&WhiteLine::row(self, y), x),
            LightHouse::Column => run_told(&WhiteLine::column(self, x), y),
            LightHouse::Lit => lit_told(self, x, y),
        }
    }

    fn cells(&self) -> usize {
        LightPuzzle::size(self).cells()
    }

    fn is_blocked(&self, place: usize) -> bool {
        !is_white(self, place)
    }

    fn scratch(&self, _alloc: Global) -> Result<(), AllocError> {
        Ok(())
    }

    fn accept(&self, _scratch: &mut (), grid: &Grid) -> bool {
        check_lights(self, grid).is_none()
    }

    ghost houses_are = { light-kinds };
}

impl GridGame for LightPuzzle {
    ghost extent = { λ p. p.size };

    ghost all_short = { λ needs. needs.cells ≤ 128 };

    fn size(&self) -> Size {
        LightPuzzle::size(self)
    }

    fn are_short(&self, made: Needs) -> bool {
        made.cells <= 128 // each side is 2 at least
    }

    ghost cells_are = { λ _. refl };
}

impl PlaneGame for LightPuzzle {
    type Short = LightNotes<u64>;

    type Long = LightNotes<u128>;

    fn completes(&self, unmet: bool, _scratch: &mut (), _grid: &Grid) -> bool {
        !unmet
    }
}
