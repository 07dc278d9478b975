//! What definitions owe one another, game by game. These calls do nothing: their contracts are the
//! laws.

ghost use Rattle.std.specs.Prelude.{◌≡◌, ◌<◌, ◌++◌, ℕ, suc, List, [], ◌∷◌, Err, length, replicate};
ghost use Rattle.gameid_core.specs.Common.{FailsHead, FailsSize, HasOneReading, HasOneText, IsLight, IsPattern, IsSolo, IsTents, TellsFirst, TellsFirstFailed, TooLong, bytes_of, concat, fill_end, fill_step, head_of, head_tests, max_id, runs, size_of, size_tests, words};
ghost use Rattle.gameid_core.specs.LightText.{IsWrittenLight, SpellsLight, light_cells_at, light_of, light_text, light_token};
ghost use Rattle.gameid_core.specs.PatternText.{IsWrittenPattern, SpellsPattern, clues_at, nothing_yet, pattern_end, pattern_of, pattern_step, pattern_text};
ghost use Rattle.gameid_core.specs.SoloText.{IsWrittenSolo, SpellsSolo, solo_cells_at, solo_end, solo_of, solo_step, solo_text};
ghost use Rattle.gameid_core.specs.TentsText.{IsWrittenTents, SpellsTents, tents_at, tents_end, tents_of, tents_step, tents_text, nothing_read};

/// A text of more bytes than an ID may have is too long, whatever they are.
#[tactic(auto, using(crate::proofs::HeadLaws::puzzle_too_long))]
pub fn over_long_is_too_long()
    ensures pattern { (text : List ℕ) → max_id < length text → pattern_of text ≡ Err TooLong }
    ensures solo { (text : List ℕ) → max_id < length text → solo_of text ≡ Err TooLong }
    ensures lights { (text : List ℕ) → max_id < length text → light_of text ≡ Err TooLong }
    ensures tents { (text : List ℕ) → max_id < length text → tents_of text ≡ Err TooLong }
{}

/// A fault of a size alone, and of the part of an ID before its colon, is the first of the tests
/// that fails, in their order.
pub fn first_failed_test()
    ensures size { TellsFirstFailed size_of FailsSize size_tests }
    ensures head { TellsFirstFailed head_of FailsHead head_tests }
{}

/// The fault of a description is that of its first token with one, or of its end, after tokens
/// without fault.
pub fn first_fault()
    ensures pattern { TellsFirst pattern_step pattern_end nothing_yet words clues_at }
    ensures solo { TellsFirst solo_step solo_end [] words solo_cells_at }
    ensures lights { TellsFirst (fill_step light_token) fill_end [] bytes_of light_cells_at }
    ensures tents { TellsFirst tents_step tents_end nothing_read words tents_at }
{}

/// Each text spells exactly one puzzle of a game or has exactly one fault, and never both.
#[tactic(auto, using(crate::proofs::GameLaws::readings))]
pub fn one_reading()
    ensures pattern { HasOneReading SpellsPattern pattern_of }
    ensures solo { HasOneReading SpellsSolo solo_of }
    ensures lights { HasOneReading SpellsLight light_of }
    ensures tents { HasOneReading SpellsTents tents_of }
{}

/// Each puzzle has exactly one written text: the one that spells it with both numbers of the size,
/// and without what is idle. In Solo and Light Up each letter directly before a letter is `z`, and
/// in Solo `_` stands only between two numbers. In Tents no `z` stands directly before `_`. In
/// Pattern and Tents there are no leading zeros.
#[tactic(auto, using(crate::proofs::GameLaws::texts))]
pub fn one_written_text()
    ensures pattern { HasOneText IsPattern IsWrittenPattern pattern_text }
    ensures solo { HasOneText IsSolo IsWrittenSolo solo_text }
    ensures lights { HasOneText IsLight IsWrittenLight light_text }
    ensures tents { HasOneText IsTents IsWrittenTents tents_text }
{}

/// Cutting a text into tokens loses nothing.
#[tactic(auto, using(crate::proofs::Reading::concat_words, crate::proofs::Reading::concat_bytes))]
pub fn tokens_lose_nothing()
    ensures words { (text : List ℕ) → concat (words text) ≡ text }
    ensures bytes { (text : List ℕ) → concat (bytes_of text) ≡ text }
{}

/// What the runs of a line are, by the cells that come first: none, a white cell, black cells up to
/// the end, or black cells and a white one. There is no other line of white and black cells, so
/// this fixes the runs of each.
#[tactic(auto, using(crate::proofs::LineLaws::run_laws), unfolding(crate::specs::Lines::runs_after))]
pub fn runs_by_first_cells()
    ensures none { runs [] ≡ [] }
    ensures white { (cells : List ℕ) → runs (0 ∷ cells) ≡ runs cells }
    ensures black { (n : ℕ) → runs (replicate (suc n) 1) ≡ suc n ∷ [] }
    ensures black_white { (n : ℕ) (cells : List ℕ)
        → runs (replicate (suc n) 1 ++ 0 ∷ cells) ≡ suc n ∷ runs cells }
{}
