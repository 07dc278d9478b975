//! What the rules of Tents are to a search.
#![tactic(auto, using(crate::proofs::LawSets::tent_rules_laws))]

ghost use Rattle.std.specs.Prelude.{◌≤◌, refl};

use crate::count::game::CountGame;
use crate::count::house::{House, Segment, count_passing, segments_beside};
use crate::count::name::Measured;
use crate::count::rules::CountRules;
use crate::planes::rules::{GridGame, PlaneGame};
use crate::planes::tents::tent_notes::TentNotes;
use crate::tents::cells::{column_number, is_tree, row_number};
use crate::tents::check::find_fault;
use crate::tents::houses::measure_tents;
use crate::tents::pairs::{PairingScratch, are_paired};
use crate::tents::tent_house::TentHouse;
use engine_core::Needs;
use gameid_core::TentsPuzzle;
use grid_core::{Grid, Size};
use std::alloc::{AllocError, Global};

/// The rules of a puzzle of Tents.
pub type TentRules = CountRules<TentsPuzzle>;

impl CountGame for TentsPuzzle {
    ghost use Rattle.fields_core.specs.Common.{HasPairingRoom, tent_counts, tent_house, tent_kind, tent_span};
    ghost use Rattle.std.specs.Prelude.{false};
    ghost use Rattle.fields_core.specs.KindLaws.{tent-kinds};

    type Scratch = PairingScratch;

    type Kind = TentHouse;

    ghost counts = { tent_counts };

    ghost told = { tent_house };

    ghost kind_of = { tent_kind };

    ghost span_of = { tent_span };

    ghost flags = { false };

    ghost serves = { HasPairingRoom };

    fn again(&self, alloc: Global) -> Result<TentsPuzzle, AllocError> {
        self.copy(alloc)
    }

    fn measured(&self) -> Measured {
        measure_tents(self)
    }

    fn kind(number: usize) -> TentHouse {
        match number {
            0 => TentHouse::Column,
            1 => TentHouse::Row,
            2 => TentHouse::Tree,
            _ => TentHouse::Square,
        }
    }

    fn span(&self, kind: TentHouse) -> usize {
        let size = self.size();
        match kind {
            TentHouse::Column => usize::from(size.w()),
            TentHouse::Row => usize::from(size.h()),
            _ => size.cells(),
        }
    }

    fn tells(&self, kind: TentHouse, place: usize) -> bool {
        let size = self.size();
        let (w, h) = (usize::from(size.w()), usize::from(size.h()));
        match kind {
            TentHouse::Column => true,
            TentHouse::Row => true,
            TentHouse::Tree => is_tree(self, place),
            TentHouse::Square => place % w + 1 < w && place / w + 1 < h,
        }
    }

    fn house(&self, kind: TentHouse, place: usize) -> House {
        let size = self.size();
        match kind {
            TentHouse::Column => {
                let column = Segment::column(size, place).alone();
                House::exactly(column_number(self, place), column)
            }
            TentHouse::Row => {
                let row = Segment::row(size, place).alone();
                House::exactly(row_number(self, place), row)
            }
            TentHouse::Tree => {
                House::one_at_least(segments_beside(size, place, |other| !is_tree(self, other)))
            }
            TentHouse::Square => {
                let none = Segment::none();
                let top = Segment::of(place, 1, 2);
                let bottom = Segment::of(place + usize::from(size.w()), 1, 2);
                House::one_at_most([top, bottom, none, none])
            }
        }
    }

    fn cells(&self) -> usize {
        TentsPuzzle::size(self).cells()
    }

    /// A tree, and a cell with no tree beside it, can have no tent.
    fn is_blocked(&self, place: usize) -> bool {
        let size = self.size();
        let w = usize::from(size.w());
        let has_tree = |other| is_tree(self, other);
        has_tree(place) || count_passing(size, place % w, place / w, has_tree) == 0
    }

    fn scratch(&self, alloc: Global) -> Result<PairingScratch, AllocError> {
        PairingScratch::new(alloc, self.cells())
    }

    fn accept(&self, scratch: &mut PairingScratch, grid: &Grid) -> bool {
        find_fault(self, grid, scratch).is_none()
    }

    ghost houses_are = { tent-kinds };
}

impl GridGame for TentsPuzzle {
    ghost extent = { λ p. p.size };

    ghost all_short = { λ needs. needs.scope ≤ 64 };

    fn size(&self) -> Size {
        TentsPuzzle::size(self)
    }

    fn are_short(&self, made: Needs) -> bool {
        made.scope <= 64
    }

    ghost cells_are = { λ _. refl };
}

impl PlaneGame for TentsPuzzle {
    type Short = TentNotes<u64>;

    type Long = TentNotes<u128>;

    fn completes(&self, _unmet: bool, scratch: &mut PairingScratch, grid: &Grid) -> bool {
        are_paired(self, grid, scratch)
    }
}
