//! Texts that are read, and kept as long as they are not too long; an input that is read whole.
ghost use Rattle.std.specs.Prelude.{◌≡◌, ◌≤◌, ◌++◌, ◌==◌, ◌&&◌, [], ℕ, true, false, length, IfOk, IfErr, OnOk};
ghost use Rattle.std.specs.Str.Lines.{strip_carriage_return};
ghost use Rattle.commands.specs.Answers.{Text};
ghost use Rattle.commands.specs.Batches.{IsInputLine, text_of_line};
ghost use Rattle.commands.specs.CheckAnswers.{begins_with_line_end, without_returns};
ghost use Rattle.commands.specs.Texts.{Given, IsKeptText, IsText};
ghost use Rattle.commands.specs.Stops.{StopsWith};
ghost use Rattle.commands.specs.Runs.{IsUnread, call_limit};

use crate::answers::status::Stop;
use crate::ends::{CALL_LIMIT, CHUNK, Source};
use gameid_core::MAX_ID;
use std::alloc::{AllocError, Global};

/// Most bytes of a text that is read whole.
pub const TEXT_LIMIT: usize = 16_384;

/// Most bytes of a line that are kept. Of more it is over-long, also if one carriage return at its
/// end is no part of it.
pub const LINE_LIMIT: usize = MAX_ID + 1;

/// The bytes of a text so far, as long as they are not too many.
#[derive(Drop)]
pub struct ReadText {
    bytes: Vec<u8>,
    is_over: bool,
}

/// The bytes without one carriage return at their end.
fn without_return(line: &[u8]) -> &[u8]
    ensures { result.now ≡ strip_carriage_return line.now }
{
    if !line.is_empty() && line[line.len() - 1] == b'\r' {
        &line[..line.len() - 1]
    } else {
        line
    }
}

impl ReadText {
    /// A text of which no byte came yet.
    pub fn new(alloc: Global) -> ReadText
        ensures { (limit : ℕ) → IsKeptText limit result [] }
    {
        ReadText {
            bytes: Vec::new(alloc),
            is_over: false,
        }
    }

    /// Takes more bytes of a text, of which at most so many are kept.
    pub fn take(&mut self, limit: usize, chunk: &[u8]) -> Result<(), AllocError>
        ensures { OnOk result ((seen : Text) → IsKeptText limit self.old seen
            → IsKeptText limit self.new (seen ++ chunk.now)) }
    {
        if self.is_over || chunk.len() > limit - self.bytes.len().min(limit) {
            self.is_over = true;
            return Ok(());
        }
        self.bytes.extend_from_slice(chunk)
    }

    /// Begins the next line, in the same memory.
    pub fn clear(&mut self)
        ensures { IsKeptText LINE_LIMIT self.new [] }
    {
        self.bytes.clear();
        self.is_over = false;
    }

    /// Whether no byte came.
    pub fn is_empty(&self) -> bool
        ensures { (piece : Text) → IsKeptText LINE_LIMIT self.now piece
            → result ≡ (length piece == 0) }
    {
        !self.is_over && self.bytes.is_empty()
    }

    /// The line that a newline ends or the end of the input, or nothing where it is over-long. One
    /// carriage return before a newline is no part of it.
    pub fn line(&self, has_newline: bool) -> Option<&[u8]>
        ensures { (piece : Text) → IsKeptText LINE_LIMIT self.now piece
            → IsInputLine result (text_of_line has_newline piece) }
    {
        let bytes = self.bytes.as_slice();
        let line = if has_newline {
            without_return(bytes)
        } else {
            bytes
        };
        if self.is_over || line.len() > MAX_ID {
            None
        } else {
            Some(line)
        }
    }

    /// All of the bytes, or nothing where they are too many.
    fn whole(self) -> Option<Vec<u8>>
        ensures { (seen : Text) → IsKeptText TEXT_LIMIT self seen → IsText result seen }
    {
        if self.is_over { None } else { Some(self.bytes) }
    }
}

/// Takes the input to its end.
fn take_whole<I: Source>(kept: &mut ReadText, input: &mut I) -> Result<(), Stop>
    requires unread { IsUnread I.Source input.old }
    requires empty { IsKeptText TEXT_LIMIT kept.old [] }
    ensures fine { OnOk result ((I.has_failed input.new ≡ false) × (I.has_ended input.new ≡ true)) }
    ensures taken { OnOk result
        (Given I.gives input.old input.new (IsKeptText TEXT_LIMIT kept.new)) }
    ensures read { (seen : Text) × I.gives input.old seen input.new }
    ensures few { I.call_count input.new ≤ call_limit }
    ensures left { IfErr result (λ e. StopsWith I.Source e input.new false) }
{
    let mut buffer = [0u8; CHUNK];
    for _turn in 0..CALL_LIMIT {
        match input.fetch(&mut buffer) {
            Some(0) => return Ok(()),
            Some(count) => kept.take(TEXT_LIMIT, &buffer[..count])?,
            None => return Err(Stop::Broken),
        }
    }
    Err(Stop::Broken)
}

/// Reads the input to its end, and gives its bytes, or nothing where they are more than
/// `TEXT_LIMIT`.
pub fn read_whole<I: Source>(alloc: Global, input: &mut I) -> Result<Option<Vec<u8>>, Stop>
    requires { IsUnread I.Source input.old }
    ensures fine { OnOk result ((I.has_failed input.new ≡ false) × (I.has_ended input.new ≡ true)) }
    ensures whole { IfOk result (λ text. Given I.gives input.old input.new (IsText text)) }
    ensures read { (seen : Text) × I.gives input.old seen input.new }
    ensures few { I.call_count input.new ≤ call_limit }
    ensures left { IfErr result (λ e. StopsWith I.Source e input.new false) }
{
    let mut kept = ReadText::new(alloc);
    take_whole(&mut kept, input)?;
    Ok(kept.whole())
}

/// Whether the byte is a carriage return directly before a line end.
fn is_dropped(byte: u8, rest: &[u8]) -> bool
    ensures { result ≡ (byte == 13) && begins_with_line_end rest.now }
{
    byte == b'\r' && rest.first() == Some(&b'\n')
}

/// The text without each carriage return that stands directly before a line end.
#[tactic(auto, using(crate::proofs::RunLemmas::copy_laws))]
pub fn without_returns(alloc: Global, text: &[u8]) -> Result<Vec<u8>, AllocError>
    ensures { IfOk result (λ v. v.items ≡ without_returns text.now) }
{
    let mut kept = Vec::new(alloc);
    let mut rest = text;
    while let Some((byte, more)) = rest.split_first() {
        if !is_dropped(*byte, more) {
            kept.push(*byte)?;
        }
        rest = more;
    }
    Ok(kept)
}
