//! What Light Up keeps beside planes, and the board that a search starts from.

ghost use Rattle.std.specs.Prelude.{◌≡◌, ℕ, ◌*◌, ◌≤◌, length};
ghost use Rattle.fields_core.specs.Common.{AreRowTables, AreTables, HasTables, IsLight, planes_have, light_cells, light_rules};

use crate::count::rules::CountRules;
use crate::light_up::cells::{columns, rows};
use crate::planes::closing::{SweepNotes, close};
use crate::planes::light_up::tables::{LightTables, cells_of_row, write_runs};
use crate::planes::light_up::waits::LightWaits;
use engine_core::{Needs, PlaneNotes, Taken};
use gameid_core::LightPuzzle;
use grid_core::{Line, Planes, Word};
use std::alloc::{AllocError, Global};

/// What is kept of a puzzle, and what waits while a closing goes on.
#[derive(Drop)]
pub struct LightNotes<W: Word> {
    pub(crate) tables: LightTables<W>,
    pub(crate) waits: LightWaits<W>,
}

impl<W: Word> LightTables<W> {
    /// Begins with the board that a search of the puzzle starts from, and writes the words of the rows.
    fn start_rows(&mut self, planes: &mut Planes<W>, puzzle: &LightPuzzle)
        requires narrow { puzzle.now.size.w ≤ W.room }
        requires low { puzzle.now.size.h ≤ W.room }
        requires few { light_cells puzzle.now * 2 ≤ length planes.old.takings }
        requires room { HasTables (light_cells puzzle.now) W.room self.old }
        ensures lawful { IsLight puzzle.now }
        ensures start { planes_have planes.new ≡ (light_rules puzzle.now).start }
        ensures size { planes.new.size ≡ puzzle.now.size }
        ensures steps { length planes.new.takings ≡ length planes.old.takings }
        ensures written { AreRowTables W.bits puzzle.now self.new }
        ensures room { (cells lines : ℕ) → HasTables cells lines self.old
            → HasTables cells lines self.new }
    {
        planes.begin(puzzle.size());
        let w = columns(puzzle);
        for y in 0..rows(puzzle) {
            let (whites, numbers) = cells_of_row(puzzle, y);
            self.rows[y] = whites;
            self.numbers[y] = numbers;
            write_runs(&mut self.row_runs, whites, y * w, 1, w);
            planes.take(Line::Row(y as u8), 1, planes.columns().but(whites));
        }
    }

    /// Writes the words of the columns, by the board that a search of the puzzle starts from.
    fn write_columns(&mut self, planes: &Planes<W>, puzzle: &LightPuzzle)
        requires start { planes_have planes.now ≡ (light_rules puzzle.now).start }
        requires size { planes.now.size ≡ puzzle.now.size }
        requires rows { AreRowTables W.bits puzzle.now self.old }
        requires room { HasTables (light_cells puzzle.now) W.room self.old }
        ensures written { AreTables W.bits puzzle.now self.new }
        ensures room { (cells lines : ℕ) → HasTables cells lines self.old
            → HasTables cells lines self.new }
    {
        let w = columns(puzzle);
        for x in 0..w {
            let whites = planes.column(x as u8, 1);
            self.columns[x] = whites;
            write_runs(&mut self.column_runs, whites, x, w, rows(puzzle));
        }
    }
}

impl<W: Word> PlaneNotes<W, CountRules<LightPuzzle>> for LightNotes<W> {
    ghost use Rattle.std.proofs.Common.{subst, sym};
    ghost use Rattle.fields_core.specs.LightPlanes.{AreLightsWritten, HasTables};

    ghost fits = { λ notes needs. HasTables needs.cells W.room notes.tables };

    ghost written = { λ rules notes. AreLightsWritten W.bits rules.puzzle notes };

    fn new(alloc: Global, made: Needs) -> Result<LightNotes<W>, AllocError> {
        Ok(LightNotes {
            tables: LightTables::new(alloc, made.cells)?,
            waits: LightWaits::all(),
        })
    }

    fn start(&mut self, planes: &mut Planes<W>, rules: &CountRules<LightPuzzle>) {
        self.tables.start_rows(planes, &rules.puzzle);
        self.tables.write_columns(planes, &rules.puzzle);
    }

    fn close(
        &mut self,
        planes: &mut Planes<W>,
        rules: &CountRules<LightPuzzle>,
        _scratch: &mut (),
        from: Option<usize>,
    ) -> Taken {
        self.waits = LightWaits::begin(planes, &rules.puzzle, from);
        close(self, planes, &rules.puzzle)
    }

    ghost fits_smaller = { λ notes need had fits room.
        subst (λ n. HasTables n W.room notes.tables) (sym fits.same_cells) room };
}

impl<W: Word> SweepNotes<W, LightPuzzle> for LightNotes<W> {
    ghost use Rattle.fields_core.specs.LightPlanes.{AreLightsWritten, HasTables};
    ghost use Rattle.fields_core.specs.LightWaits.{AreLightsReady};

    ghost fits = { λ notes needs. HasTables needs.cells W.room notes.tables };

    ghost written = { λ p notes. AreLightsWritten W.bits p notes };

    ghost ready = { λ p planes notes. AreLightsReady W.bits W.room p planes notes };

    fn sweep(&mut self, planes: &mut Planes<W>, puzzle: &LightPuzzle) -> bool {
        self.sweep_numbers(planes, puzzle) && self.sweep_white(planes, puzzle)
    }
}
