//! Sweeps of the houses of Tents on planes.
#![tactic(auto, using(crate::proofs::LawSets::tent_sweep_laws))]

ghost use Rattle.std.specs.Prelude.{◌<◌, ◌≡◌, map, true};
ghost use Rattle.fields_core.specs.Common.{AreTentsReady, AreVisitedOrDoomed, IsFieldOf, all_of_kind, kind_houses, kind_lines};

use crate::planes::tents::lines::{are_apart, visit_column, visit_row};
use crate::planes::tents::squares::visit_squares;
use crate::planes::tents::tent_notes::TentNotes;
use crate::planes::tents::trees::visit_trees;
use crate::planes::tents::waits::Kind;
use gameid_core::TentsPuzzle;
use grid_core::{Line, Planes, Word};

impl<W: Word> TentNotes<W> {
    /// Visits the houses of a kind at a line. Where two tents must touch in a line, the squares will have no filling, whatever
    /// is visited before them.
    #[inline(always)]
    fn visit(&mut self, planes: &mut Planes<W>, puzzle: &TentsPuzzle, kind: Kind, line: u8) -> bool
        requires field { IsFieldOf W.room puzzle.now planes.old
            (map W.bits self.old.trees.items) }
        requires line_in { line < kind_lines puzzle.now kind }
        ensures visited { AreVisitedOrDoomed puzzle.now kind (kind_houses puzzle.now kind line)
            planes.old planes.new result }
        ensures trees { self.new.trees ≡ self.old.trees }
        ensures waits { self.new.waits ≡ self.old.waits }
    {
        match kind {
            Kind::Columns => {
                visit_column(planes, puzzle, line) && are_apart(planes, Line::Column(line))
            }
            Kind::Rows => visit_row(planes, puzzle, line) && are_apart(planes, Line::Row(line)),
            Kind::Trees => visit_trees(planes, &self.trees, line),
            Kind::Squares => visit_squares(planes, puzzle, line),
        }
    }

    /// Visits the houses of a kind that wait, up to one that has no filling, or after which the squares have none: all others
    /// are idle.
    #[inline(always)]
    pub(crate) fn sweep_kind(
        &mut self,
        planes: &mut Planes<W>,
        puzzle: &TentsPuzzle,
        kind: Kind,
    ) -> bool
        requires ready { AreTentsReady W.bits W.room puzzle.now planes.old self.old }
        ensures visited { AreVisitedOrDoomed puzzle.now kind (all_of_kind puzzle.now kind)
            planes.old planes.new result }
        ensures ready { result ≡ true
            → AreTentsReady W.bits W.room puzzle.now planes.new self.new }
        ensures trees { self.new.trees ≡ self.old.trees }
    {
        let len = planes.len();
        let mut left = self.waits.lines(planes, kind);
        while left.is_some() {
            if !self.visit(planes, puzzle, kind, left.lowest() as u8) {
                return false;
            }
            left = left.without_lowest();
        }
        if planes.len() > len {
            let (zeros, ones) = planes.lost(len);
            self.waits = self.waits.woken(zeros, ones);
        }
        self.waits.settle(kind);
        true
    }
}
