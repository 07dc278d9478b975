//! Planes with their trail, as a position.
#![tactic(auto, using(crate::proofs::LawSets::plane_position_laws))]

ghost use Rattle.std.specs.Prelude.{◌≡◌, ◌≤◌, length};
ghost use Rattle.engine_core.specs.PlanePosition.{AreUnderWay, standing_on_planes};

use crate::mode::Taken;
use crate::needs::{Needs, needs_for};
use crate::planes::lengths::{PlanesOf, at_planes, choose, planes_for};
use crate::planes::rules::{PlaneNotes, PlaneRules};
use crate::search::position::Position;
use grid_core::Grid;
use std::alloc::{AllocError, Global};
use std::marker::Model;

/// Planes with their trail. With it go what the rules keep beside planes, spare planes of longer words, and what the rules work
/// in.
pub struct PlanePosition<R: PlaneRules> {
    made: Needs,
    scratch: R::Scratch,
    planes: PlanesOf<R>,
    spare: Option<PlanesOf<R>>,
}

impl<R: PlaneRules> Drop for PlanePosition<R> {
    fn drop(self) {
        let PlanePosition {
            made,
            scratch,
            planes,
            spare,
        } = self;
    }
}

impl<R: PlaneRules> Model for PlanePosition<R> {
    ghost use Rattle.engine_core.specs.Needs.{needs_in};
    ghost use Rattle.engine_core.specs.PlanePosition.{AreChosen, PlacedPlanes, notes_of, layers_in};

    ghost Value = { PlacedPlanes R.Short R.Long };

    ghost view = { λ s. record {
      made = needs_in s.made;
      planes = layers_in s.planes;
      kept = notes_of s.planes;
    } };

    ghost invariant = { λ s. AreChosen R.Short.fits R.Long.fits R.all_short s.made s.planes s.spare
        × R.serves s.scratch (needs_in s.made) };
}

impl<R: PlaneRules> Position<R> for PlanePosition<R> {
    ghost use Rattle.engine_core.specs.PlanePosition.{of_either};

    ghost stands = { λ s. standing_on_planes s };

    ghost room = { λ s. record { needs = s.made; trail = length s.planes.takings } };

    ghost walks = { λ rules s. AreUnderWay (R.system rules) (R.extent rules)
        (of_either (R.Short.written rules) (R.Long.written rules)) s };

    fn new(alloc: Global, rules: &R) -> Result<PlanePosition<R>, AllocError> {
        let made = needs_for(rules);
        let scratch = rules.scratch(alloc)?;
        let (planes, spare) = planes_for(alloc, rules, made)?;
        Ok(PlanePosition {
            made,
            scratch,
            planes,
            spare,
        })
    }

    fn changes(&self) -> usize {
        at_planes!(&self.planes, noted => noted.planes.room())
    }

    fn len(&self) -> usize {
        at_planes!(&self.planes, noted => noted.planes.len())
    }

    fn begin(&mut self, rules: &R) {
        choose(&mut self.planes, &mut self.spare, rules, self.made);
        at_planes!(&mut self.planes, noted => noted.notes.start(&mut noted.planes, rules));
    }

    fn close(&mut self, rules: &R, from: Option<usize>) -> Taken {
        let scratch = &mut self.scratch;
        at_planes!(&mut self.planes, noted => {
            noted.notes.close(&mut noted.planes, rules, scratch, from)
        })
    }

    fn pick(&self, _rules: &R, from: usize) -> Option<usize> {
        at_planes!(&self.planes, noted => {
            let (row, _) = noted.planes.split(from);
            noted.planes.pick(row as u8)
        })
    }

    fn next_value(&self, _rules: &R, cell: usize, from: u8) -> Option<u8> {
        for value in from..2 {
            if at_planes!(&self.planes, noted => noted.planes.has(cell, value)) {
                return Some(value);
            }
        }
        None
    }

    fn leave(&mut self, _rules: &R, cell: usize, value: u8) {
        at_planes!(&mut self.planes, noted => noted.planes.assign(cell, value));
    }

    fn undo(&mut self, _rules: &R, mark: usize) {
        at_planes!(&mut self.planes, noted => noted.planes.undo(mark));
    }

    fn accept(&mut self, rules: &R, grid: &mut Grid) -> bool {
        at_planes!(&self.planes, noted => noted.planes.write_grid(grid));
        rules.completes(&mut self.scratch, grid)
    }

    ghost inside = { λ rules s walks. walks.board.board.inside };
}
