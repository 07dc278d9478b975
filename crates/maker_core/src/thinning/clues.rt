//! The clues of Solo and of Light Up.
#![tactic(auto, using(crate::proofs::ThinningTurns::clue_laws))]

use crate::thinning::clued::Clued;
use fields_core::LightRules;
use gameid_core::{LightCell, LightPuzzle, SoloPuzzle};
use solo_core::SoloHouses;
use std::alloc::{AllocError, Global};

/// The givens.
impl Clued for SoloPuzzle {
    ghost use Rattle.std.specs.Prelude.{◌≤◌};
    ghost use Rattle.gameid_core.specs.Puzzles.{solo_n};
    ghost use Rattle.solo_core.specs.RuleSets.{houses_rules};
    ghost use Rattle.maker_core.specs.SoloMaking.{solo_game};
    ghost use Rattle.maker_core.specs.SoloCluesLaws.{solo_is_game};

    type Search = SoloHouses;

    ghost game = { solo_game };

    ghost meaning = { λ search. houses_rules search.set.puzzle };

    ghost can_be_clue = { λ p n. n ≤ solo_n p };

    ghost lawful = { solo_is_game };

    fn cells(&self) -> usize {
        let n = usize::from(self.n());
        n * n
    }

    fn has_clue(&self, place: usize) -> bool {
        self.given(place) != 0
    }

    fn take_clue(&mut self, place: usize) -> u8 {
        let clue = self.given(place);
        self.set_given(place, 0);
        clue
    }

    fn put_clue(&mut self, place: usize, clue: u8) {
        self.set_given(place, clue);
    }

    fn search(&self, alloc: Global) -> Result<SoloHouses, AllocError> {
        SoloHouses::new(alloc, self)
    }
}

/// The numbers of black cells.
impl Clued for LightPuzzle {
    ghost use Rattle.std.specs.Prelude.{◌≤◌};
    ghost use Rattle.fields_core.specs.LightHouses.{light_rules};
    ghost use Rattle.maker_core.specs.LightMaking.{light_game};
    ghost use Rattle.maker_core.specs.LightCluesLaws.{light_is_game};

    type Search = LightRules;

    ghost game = { light_game };

    ghost meaning = { λ search. light_rules search.puzzle };

    ghost can_be_clue = { λ p n. n ≤ 4 };

    ghost lawful = { light_is_game };

    fn cells(&self) -> usize {
        self.size().cells()
    }

    fn has_clue(&self, place: usize) -> bool {
        matches!(self.cell(place), LightCell::Numbered(_))
    }

    fn take_clue(&mut self, place: usize) -> u8 {
        match self.cell(place) {
            LightCell::Numbered(clue) => {
                self.set_cell(place, LightCell::Black);
                clue
            }
            LightCell::White | LightCell::Black => unreachable!(),
        }
    }

    fn put_clue(&mut self, place: usize, clue: u8) {
        self.set_cell(place, LightCell::Numbered(clue));
    }

    fn search(&self, alloc: Global) -> Result<LightRules, AllocError> {
        LightRules::for_search(alloc, self)
    }
}
