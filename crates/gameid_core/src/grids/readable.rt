//! Puzzles whose printed grids can be read.
ghost use Rattle.std.specs.Prelude.{◌≡◌, ◌*◌, ◌<◌, ◌≤◌, ◌==◌, ◌++◌, ◌∷◌, [], ℕ, List, Some, None, IfSome, if◌then◌else◌, length, slice_index};
ghost use Rattle.gameid_core.specs.PrintedForm.{IsCellRead};

use crate::grids::printed::Printed;

/// A puzzle whose printed grids can be read.
pub trait Readable: Printed {
    // What is printed at the place shows nothing of the number there.
    ghost hides: { Self → ℕ → Type 0 };

    /// The number at a place and how many bytes are printed of it, where the text begins with that.
    /// What is printed of a grid is always read back; the numbers of another text are any that a
    /// grid may hold there.
    fn read_cell(&self, text: &[u8], place: usize) -> Option<(u8, usize)>
        requires place { place < (Self.extent self.now).w * (Self.extent self.now).h }
        ensures range { IfSome result (λ r. r.0 < Self.value_count self.now) }
        ensures hidden { IfSome result (λ r. hides self.now place → r.0 ≡ 0) }
        ensures within { IfSome result (λ r. r.1 ≤ length text.now) }
        ensures read { IsCellRead Self.Printed hides self.now place text.now result };
}

/// Whether the text begins with the symbol, as 1 or 0, and the one byte that says so.
pub(crate) fn read_symbol(text: &[u8], symbol: u8) -> Option<(u8, usize)>
    ensures range { IfSome result (λ r. r.0 < 2) }
    ensures within { IfSome result (λ r. r.1 ≤ length text.now) }
    ensures none { text.now ≡ [] → result ≡ None }
    ensures read { (byte : ℕ) (after : List ℕ) → text.now ≡ byte ∷ after
        → result ≡ Some ((if byte == symbol then 1 else 0), 1) }
{
    let first = *text.first()?;
    Some((u8::from(first == symbol), 1))
}

/// A byte that shows nothing of the number at its place, which is 0.
pub(crate) fn read_hidden(text: &[u8]) -> Option<(u8, usize)>
    ensures zero { IfSome result (λ r. r.0 ≡ 0) }
    ensures within { IfSome result (λ r. r.1 ≤ length text.now) }
    ensures none { text.now ≡ [] → result ≡ None }
    ensures read { 1 ≤ length text.now → result ≡ Some (0, 1) }
{
    if text.is_empty() { None } else { Some((0, 1)) }
}
