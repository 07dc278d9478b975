//! Where the input comes from and where the text goes, one system call at a time.
ghost use Rattle.std.specs.Prelude.{◌≡◌, ◌+◌, ◌<◌, ◌≤◌, ◌++◌, ℕ, Bool, false, not, List, [], length, is_none, IfSome};
ghost use Rattle.commands.specs.Ends.{handed, is_end};

pub mod output;
pub mod text;

/// Most calls of `fetch` in one run.
pub const CALL_LIMIT: u32 = 1_048_576;

/// Most bytes that one `fetch` asks for.
pub const CHUNK: usize = 4_096;

/// Gives bytes, some at each call, until its end or a failure.
pub trait Source {
    // From the one moment to the other the source gave these bytes.
    ghost gives: { Self → List ℕ → Self → Type 0 };

    ghost call_count: { Self → ℕ };

    ghost has_failed: { Self → Bool };

    ghost has_ended: { Self → Bool };

    /// How many calls of `fetch` there were.
    fn calls(&self) -> u32
        ensures { result ≡ call_count self.now };

    /// Whether a call failed.
    fn failed(&self) -> bool
        ensures { result ≡ has_failed self.now };

    /// Whether the end was met.
    fn ended(&self) -> bool
        ensures { result ≡ has_ended self.now };

    /// The next bytes: how many, 0 at the end, or nothing at a failure.
    fn fetch(&mut self, buffer: &mut [u8]) -> Option<usize>
        requires not_failed { has_failed self.old ≡ false }
        requires not_ended { has_ended self.old ≡ false }
        requires calls_left { call_count self.old < CALL_LIMIT }
        requires not_empty { 1 ≤ length buffer.old }
        requires not_large { length buffer.old ≤ CHUNK }
        ensures within { IfSome result (λ n. n ≤ length buffer.new) }
        ensures bytes { gives self.old (handed result buffer.new) self.new }
        ensures counted { call_count self.new ≡ call_count self.old + 1 }
        ensures failed { has_failed self.new ≡ is_none result }
        ensures ended { has_ended self.new ≡ is_end result };

    // From a moment to itself nothing is given. What two times in turn gave is given by both together.
    ghost gives_nothing: { (s : Self) → gives s [] s };

    ghost gives_both: { (s t u : Self) (a b : List ℕ)
        → gives s a t → gives t b u → gives s (a ++ b) u };
}

/// Takes bytes, some at each call, until a failure.
pub trait Sink {
    // From the one moment to the other the sink took these bytes.
    ghost takes: { Self → List ℕ → Self → Type 0 };

    ghost has_failed: { Self → Bool };

    // All that was taken was sent on.
    ghost is_flushed: { Self → Bool };

    /// Whether a call failed.
    fn failed(&self) -> bool
        ensures { result ≡ has_failed self.now };

    /// Takes the first of the bytes: how many, or nothing at a failure.
    fn put(&mut self, bytes: &[u8]) -> Option<usize>
        requires not_failed { has_failed self.old ≡ false }
        requires not_empty { 1 ≤ length bytes.now }
        ensures some { IfSome result (λ n. 1 ≤ n) }
        ensures within { IfSome result (λ n. n ≤ length bytes.now) }
        ensures bytes { takes self.old (handed result bytes.now) self.new }
        ensures failed { has_failed self.new ≡ is_none result }
        ensures flushed { is_flushed self.new ≡ false };

    /// Sends on what was taken, and says whether that was done.
    fn finish(&mut self) -> bool
        requires { has_failed self.old ≡ false }
        ensures bytes { takes self.old [] self.new }
        ensures failed { has_failed self.new ≡ not result }
        ensures flushed { is_flushed self.new ≡ result };

    // From a moment to itself nothing is taken. What two times in turn took is taken by both together.
    ghost takes_nothing: { (s : Self) → takes s [] s };

    ghost takes_both: { (s t u : Self) (a b : List ℕ)
        → takes s a t → takes t b u → takes s (a ++ b) u };
}
