//! The rules of a puzzle of count houses.
#![tactic(auto, using(crate::proofs::LawSets::count_rules_laws))]

ghost use Rattle.std.specs.Prelude.{◌<◌, ◌∷◌, ◌≡◌, IfOk, [], false, length, refl, true};
ghost use Rattle.grid_core.specs.Board.{cells_of, has};
ghost use Rattle.fields_core.specs.Common.{AreNamed, HasStruck, IsCounted, IsFlagged, IsHouse, IsMeasured, SameShape, Sweep, after_house, count_house_of, house_told, rules_of};

use crate::count::game::CountGame;
use crate::count::house::{House, next_passing};
use crate::count::name::{HouseName, Measured};
use crate::count::names::{name_of, names_of};
use crate::count::tally::Tally;
use engine_core::{Mode, Rules};
use grid_core::{Board, Fixed, Grid};
use std::alloc::{AllocError, Global};

/// A copy of the puzzle, what was counted of its houses, and the names of all of them or of none.
#[derive(Drop)]
pub struct CountRules<P: CountGame> {
    pub(crate) puzzle: P,
    pub(crate) measured: Measured,
    names: Fixed<HouseName<P::Kind>>,
    ghost counting: { IsCounted (P.counts puzzle) },
    ghost counted: { IsMeasured (P.counts puzzle).houses measured },
    ghost flagged: { IsFlagged (P.counts puzzle) P.flags measured.unmet },
    ghost named: { AreNamed (P.told puzzle) names.items (P.counts puzzle).houses },
}

impl<P: CountGame> CountRules<P> {
    /// The rules of the puzzle. They keep a copy of it, and the names of its houses.
    ///
    /// # Errors
    ///
    /// When memory was refused.
    pub fn new(alloc: Global, puzzle: &P) -> Result<CountRules<P>, AllocError>
        ensures known { IsCounted (P.counts puzzle.now) }
        ensures copied { IfOk result (λ rules. rules.puzzle ≡ puzzle.now) }
        ensures rules { IfOk result (λ v. ⟦<Self as Rules>⟧.system v
            ≡ rules_of (P.counts puzzle.now)) }
    {
        let measured = puzzle.measured();
        let names = Fixed::of(names_of(alloc, puzzle, measured.houses)?);
        Ok(CountRules {
            puzzle: puzzle.again(alloc)?,
            measured,
            names,
        })
    }

    /// The same rules, for searches: a house that is asked for is looked for among all.
    ///
    /// # Errors
    ///
    /// When memory was refused.
    pub fn for_search(alloc: Global, puzzle: &P) -> Result<CountRules<P>, AllocError>
        ensures known { IsCounted (P.counts puzzle.now) }
        ensures copied { IfOk result (λ rules. rules.puzzle ≡ puzzle.now) }
        ensures rules { IfOk result (λ v. ⟦<Self as Rules>⟧.system v
            ≡ rules_of (P.counts puzzle.now)) }
    {
        let measured = puzzle.measured();
        Ok(CountRules {
            puzzle: puzzle.again(alloc)?,
            measured,
            names: Fixed::of(Vec::new(alloc)),
        })
    }

    /// The name of the house of that number.
    fn name(&self, house: usize) -> HouseName<P::Kind>
        requires { house < length (P.counts self.now.puzzle).houses }
        ensures { P.told self.now.puzzle result.kind result.place
            ≡ count_house_of (P.counts self.now.puzzle).houses house ∷ [] }
    {
        if house < self.names.len() {
            return self.names[house];
        }
        name_of(&self.puzzle, house)
    }

    /// The house of that number.
    fn house(&self, house: usize) -> House
        requires { house < length (P.counts self.now.puzzle).houses }
        ensures { house_told result
            ≡ count_house_of (P.counts self.now.puzzle).houses house }
    {
        let name = self.name(house);
        self.puzzle.house(name.kind, usize::from(name.place))
    }
}

/// Strikes from the house's cells what it strikes, and says whether that was anything.
fn strike(house: &House, board: &mut Board) -> bool
    requires lawful { IsHouse (cells_of board.old) (house_told house.now) }
    requires values { board.old.values ≡ 2 }
    ensures left { has board.new ≡ after_house (house_told house.now) (has board.old) }
    ensures shape { SameShape board.old board.new }
    ensures unchanged { result ≡ false → has board.new ≡ has board.old }
    ensures changed { result ≡ true → HasStruck (has board.old) (has board.new) }
{
    let tally = Tally::of(house, board);
    if tally.kept(house.bounds, tally.must != tally.may) == 3 {
        return false;
    }
    let mut struck = false;
    for k in 0..house.len() {
        let place = house.place(k);
        let both = board.has(place, 0) & board.has(place, 1);
        struck |= board.retain(place, tally.kept(house.bounds, both));
    }
    struck
}

impl<P: CountGame> Rules for CountRules<P> {
    ghost use Rattle.fields_core.specs.Common.{count-lawful, subst, sym};

    type Scratch = P::Scratch;

    const SETTLED: bool = true;

    const MODE: Mode = Mode::Sweep;

    ghost system = { λ r. rules_of (P.counts r.puzzle) };

    ghost SETTLED = { true };

    ghost MODE = { Sweep };

    ghost serves = { λ w needs. P.serves w needs.cells };

    ghost lawful = { λ r. count-lawful _ _ _ _ r.counting };

    ghost settled_is = { λ _. refl };

    ghost mode_is = { λ _. refl };

    ghost serves_smaller = { λ w need had f s. subst (P.serves w) (sym f.same_cells) s };

    fn cells(&self) -> usize {
        self.puzzle.cells()
    }

    fn values(&self) -> u8 {
        2
    }

    fn houses(&self) -> usize {
        self.measured.houses
    }

    fn bound(&self) -> usize {
        self.cells() + 1
    }

    fn scope_len(&self, house: usize) -> usize {
        self.house(house).len()
    }

    fn longest(&self) -> usize {
        self.measured.longest
    }

    fn scope(&self, house: usize, k: usize) -> usize {
        self.house(house).place(k)
    }

    /// A sweep visits all houses: no closing asks for it.
    fn house_at(&self, place: usize, from: usize) -> Option<usize> {
        next_passing(
            from,
            self.measured.houses,
            |house| self.house(house).has(place),
        )
    }

    /// A blocked cell has only 0, and all other sets are full.
    fn start(&self, board: &mut Board) {
        board.fill();
        for place in 0..self.cells() {
            if self.puzzle.is_blocked(place) {
                board.strike(place, 1);
            }
        }
    }

    fn scratch(&self, alloc: Global) -> Result<P::Scratch, AllocError> {
        self.puzzle.scratch(alloc)
    }

    fn visit(&self, house: usize, board: &mut Board, _scratch: &mut P::Scratch) -> bool {
        strike(&self.house(house), board)
    }

    fn accept(&self, scratch: &mut P::Scratch, grid: &Grid) -> bool {
        self.puzzle.accept(scratch, grid)
    }
}
