//! Names of count houses, and what is counted of all of them.

ghost use Rattle.std.specs.Prelude.{◌+◌, ◌<◌, ◌^◌, ◌≡◌, ◌∷◌, [], false, length};
ghost use Rattle.fields_core.specs.Common.{AddsHouses, CountHouse, IsMeasured};

/// A house: of which kind it is, and the place or the line that tells it.
#[derive(Clone, Copy)]
pub struct HouseName<K> {
    pub(crate) kind: K,
    pub(crate) place: u16,
}

impl<K: Copy> HouseName<K> {
    /// The house of that kind that the place or the line tells.
    pub(crate) fn of(kind: K, place: usize) -> HouseName<K>
        requires { place < 2 ^ 16 }
        ensures kind { result.kind ≡ kind }
        ensures place { result.place ≡ place }
    {
        let place = place as u16;
        HouseName { kind, place }
    }
}

/// How many houses there are and how many cells the longest has. The flag: whether no grid meets one that has no cell.
#[derive(Clone, Copy)]
pub struct Measured {
    pub(crate) houses: usize,
    pub(crate) longest: usize,
    pub(crate) unmet: bool,
}

impl Measured {
    /// What is counted of no houses.
    pub(crate) fn none() -> Measured
        ensures counted { IsMeasured [] result }
        ensures unmet { result.unmet ≡ false }
    {
        Measured {
            houses: 0,
            longest: 0,
            unmet: false,
        }
    }

    /// Counts a house of so many cells.
    pub(crate) fn add(&mut self, cells: usize)
        requires { self.old.houses < 2 ^ 32 }
        ensures added { (house : CountHouse) → cells ≡ length house.places
            → AddsHouses (house ∷ []) self.old self.new }
        ensures one { self.new.houses ≡ self.old.houses + 1 }
        ensures unmet { self.new.unmet ≡ self.old.unmet }
    {
        self.houses += 1;
        self.longest = self.longest.max(cells);
    }
}
