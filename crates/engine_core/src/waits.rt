//! Which houses wait: a bit for each, in words of 64.
#![tactic(auto, using(crate::proofs::LawSets::wait_laws))]

ghost use Rattle.std.specs.Prelude.{◌&&◌, ◌/◌, ◌<◌, ◌==◌, ◌||◌, ◌≡◌, ◌≤◌, ℕ, length, not};
ghost use Rattle.engine_core.specs.Common.{IsNext, but, IsQueuedAround, words_of, is_waiting, has_bit as is_set};

/// Marks the house in the bits of those that wait.
pub(crate) fn enqueue(waits: &mut [u64], house: usize)
    requires { house / 64 < length waits.old }
    ensures { (j : ℕ) → is_waiting waits.new j ≡ (is_waiting waits.old j || (j == house)) }
{
    let word = house / 64;
    waits[word] |= 1 << (house % 64);
}

/// Takes the house's mark away.
pub(crate) fn dequeue(waits: &mut [u64], house: usize)
    requires { house / 64 < length waits.old }
    ensures { (j : ℕ) → is_waiting waits.new j ≡ but (is_waiting waits.old) house j }
{
    let word = house / 64;
    waits[word] &= !(1 << (house % 64));
}

/// Takes the house's mark away if it is settled.
pub(crate) fn dequeue_if(waits: &mut [u64], house: usize, settled: bool)
    requires { house / 64 < length waits.old }
    ensures { (j : ℕ) → is_waiting waits.new j
        ≡ (is_waiting waits.old j && not (settled && (j == house))) }
{
    if settled {
        dequeue(waits, house);
    }
}

/// The least house at or after `from` that waits.
pub(crate) fn next_waiting(waits: &[u64], from: usize, houses: usize) -> Option<usize>
    requires { words_of houses ≤ length waits.now }
    ensures { IsNext (is_waiting waits.now) houses from result }
{
    let mut bit = from % 64;
    for word in from / 64..houses / 64 + 1 {
        let left = waits[word] >> bit;
        if left != 0 {
            let house = word * 64 + (bit + left.trailing_zeros() as usize);
            return if house < houses { Some(house) } else { None };
        }
        bit = 0;
    }
    None
}

/// A house that waits: the least at or after `from`, or else the least of all.
pub(crate) fn next_around(waits: &[u64], from: usize, houses: usize) -> Option<usize>
    requires { words_of houses ≤ length waits.now }
    ensures { IsQueuedAround (is_waiting waits.now) houses from result }
{
    match next_waiting(waits, from, houses) {
        Some(house) => Some(house),
        None => next_waiting(waits, 0, houses),
    }
}
