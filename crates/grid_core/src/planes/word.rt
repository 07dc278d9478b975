//! Sets of places along a line as words of bits.
#![tactic(auto, using(crate::proofs::WordLemmas::word_laws))]

ghost use Rattle.std.specs.Prelude.{◌≡◌, ℕ, ◌+◌, ◌-◌, ◌<◌, ◌≤◌, true, false, not, ◌&&◌, ◌||◌, ◌==◌, nat_lt};
ghost use Rattle.grid_core.specs.Candidates.{any_below, count_below};
ghost use Rattle.grid_core.specs.Words.{has_bit, differ, AreBits, IsLeast, IsWithoutLowest, moved_on};

/// A set of places.
pub trait Word: Copy + Drop {
    /// How many places there are.
    ghost room: { ℕ };

    /// The places of a set, as the bits of a number.
    ghost bits: { Self → ℕ };

    /// How many places there are at most.
    fn places() -> usize
        ensures value { result ≡ room }
        ensures few { result ≤ 128 };

    /// No place.
    fn none() -> Self
        ensures { (p : ℕ) → has_bit (bits result) p ≡ false };

    /// The first places, so many.
    fn all(count: usize) -> Self
        requires { count ≤ room }
        ensures { (p : ℕ) → has_bit (bits result) p ≡ nat_lt p count };

    /// That place alone.
    fn one(place: usize) -> Self
        requires { place < room }
        ensures { (p : ℕ) → has_bit (bits result) p ≡ (p == place) };

    /// The places that both have.
    fn both(self, other: Self) -> Self
        ensures { AreBits (bits result) (λ p. has_bit (bits self) p && has_bit (bits other) p) };

    /// The places that one of the two has, or both.
    fn either(self, other: Self) -> Self
        ensures { AreBits (bits result) (λ p. has_bit (bits self) p || has_bit (bits other) p) };

    /// The places that just one of the two has.
    fn differ(self, other: Self) -> Self
        ensures { AreBits (bits result)
            (λ p. differ (has_bit (bits self) p) (has_bit (bits other) p)) };

    /// The places but the other's.
    fn but(self, other: Self) -> Self
        ensures { AreBits (bits result)
            (λ p. has_bit (bits self) p && not (has_bit (bits other) p)) };

    /// The places one further on, of those that there are.
    fn on(self) -> Self
        ensures { AreBits (bits result) (moved_on room (bits self)) };

    /// The places one further back.
    fn back(self) -> Self
        ensures { (p : ℕ) → has_bit (bits result) p ≡ has_bit (bits self) (p + 1) };

    /// Whether it has the place.
    fn has(self, place: usize) -> bool
        requires { place < room }
        ensures { result ≡ has_bit (bits self) place };

    /// Whether there is a place.
    fn is_some(self) -> bool
        ensures { result ≡ any_below (has_bit (bits self)) room };

    /// How many places there are.
    fn count(self) -> usize
        ensures { result ≡ count_below (has_bit (bits self)) room };

    /// The lowest place.
    fn lowest(self) -> usize
        requires { any_below (has_bit (bits self)) room ≡ true }
        ensures { IsLeast (has_bit (bits self)) room result };

    /// The places but the lowest.
    fn without_lowest(self) -> Self
        requires { any_below (has_bit (bits self)) room ≡ true }
        ensures { IsWithoutLowest room (bits self) (bits result) };
}

impl Word for u64 {
    ghost room = { 64 };

    ghost bits = { λ word. word };

    fn places() -> usize {
        64
    }

    fn none() -> u64 {
        0
    }

    fn all(count: usize) -> u64 {
        if count == 64 {
            return u64::MAX;
        }
        (1 << count) - 1
    }

    fn one(place: usize) -> u64 {
        1 << place
    }

    fn both(self, other: u64) -> u64 {
        self & other
    }

    fn either(self, other: u64) -> u64 {
        self | other
    }

    fn differ(self, other: u64) -> u64 {
        self ^ other
    }

    fn but(self, other: u64) -> u64 {
        self & (self ^ other)
    }

    fn on(self) -> u64 {
        self << 1
    }

    fn back(self) -> u64 {
        self >> 1
    }

    fn has(self, place: usize) -> bool {
        (self >> place) & 1 == 1
    }

    fn is_some(self) -> bool {
        self != 0
    }

    fn count(self) -> usize {
        self.count_ones() as usize
    }

    fn lowest(self) -> usize {
        self.trailing_zeros() as usize
    }

    fn without_lowest(self) -> u64 {
        self & (self - 1)
    }
}

impl Word for u128 {
    ghost room = { 128 };

    ghost bits = { λ word. word };

    fn places() -> usize {
        128
    }

    fn none() -> u128 {
        0
    }

    fn all(count: usize) -> u128 {
        if count == 128 {
            return u128::MAX;
        }
        (1 << count) - 1
    }

    fn one(place: usize) -> u128 {
        1 << place
    }

    fn both(self, other: u128) -> u128 {
        self & other
    }

    fn either(self, other: u128) -> u128 {
        self | other
    }

    fn differ(self, other: u128) -> u128 {
        self ^ other
    }

    fn but(self, other: u128) -> u128 {
        self & (self ^ other)
    }

    fn on(self) -> u128 {
        self << 1
    }

    fn back(self) -> u128 {
        self >> 1
    }

    fn has(self, place: usize) -> bool {
        (self >> place) & 1 == 1
    }

    fn is_some(self) -> bool {
        self != 0
    }

    fn count(self) -> usize {
        self.count_ones() as usize
    }

    fn lowest(self) -> usize {
        self.trailing_zeros() as usize
    }

    fn without_lowest(self) -> u128 {
        self & (self - 1)
    }
}
