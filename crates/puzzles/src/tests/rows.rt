//! Runs as lines of a table: the words, then ` < ` and the input where it is read, then ` > `, the
//! status and what is written. A `|` is a line end, and `''` is an empty word. `(N:text)` is the
//! text N times, which may have others in it.
use crate::run::run_on_bytes;
use crate::tests::fakes::{Did, Ends, observe};
use std::alloc::Global;
use std::test::Fail;

/// A run, with what it is to write.
pub struct Row {
    pub words: Vec<String>,
    pub is_read: bool,
    pub input: String,
    pub status: u8,
    pub text: String,
}

impl Drop for Row {
    fn drop(self) {
        let Row {
            words,
            is_read,
            input,
            status,
            text,
        } = self;
    }
}

/// A text with its last group unfolded, if it has one.
fn unfolded_once(alloc: Global, text: &str) -> Result<Option<String>, Fail> {
    let Some((before, rest)) = text.rsplit_once('(') else {
        return Ok(None);
    };
    let (group, after) = rest.split_once(')').ok_or("a group's end")?;
    let (count, again) = group.split_once(':').ok_or("a group's count")?;
    let mut unfolded = String::from_str(alloc, before)?;
    for _ in 0..count.parse::<usize>()? {
        unfolded.push_str(again)?;
    }
    unfolded.push_str(after)?;
    Ok(Some(unfolded))
}

/// The text that a piece of a table stands for.
fn unfolded(alloc: Global, piece: &str) -> Result<String, Fail> {
    let mut folded = String::from_str(alloc, piece)?;
    for _ in 0..piece.len() {
        match unfolded_once(alloc, &folded)? {
            Some(text) => folded = text,
            None => break,
        }
    }
    let mut text = String::new(alloc);
    for ch in folded.chars() {
        text.push(if ch == '|' { '\n' } else { ch })?;
    }
    Ok(text)
}

/// The words of a command line.
fn words_of(alloc: Global, line: &str) -> Result<Vec<String>, Fail> {
    let mut all = Vec::new(alloc);
    for word in line.split_whitespace() {
        all.push(unfolded(alloc, if word == "''" { "" } else { word })?)?;
    }
    Ok(all)
}

impl Row {
    /// The run of a line, and what it is to write.
    pub fn read(alloc: Global, line: &str) -> Result<Row, Fail> {
        let (asked, told) = line.split_once(" > ").unwrap_or((line, "0"));
        Row::of(alloc, asked, told)
    }

    /// The run of these words and their input, with its status and what it is to write.
    pub fn of(alloc: Global, asked: &str, told: &str) -> Result<Row, Fail> {
        let (words, input) = asked.split_once(" < ").unwrap_or((asked, "unread"));
        let (status, text) = told.split_once(' ').unwrap_or((told, ""));
        let status = status.parse::<u8>()?;
        let text = unfolded(alloc, text)?;
        let input = unfolded(alloc, input)?;
        Ok(Row {
            is_read: asked.contains(" < "),
            words: words_of(alloc, words)?,
            input,
            status,
            text,
        })
    }

    /// The run over such ends: what it did, and what it wrote.
    pub fn run(&self, alloc: Global, ends: Ends) -> (Did, Vec<u8>) {
        observe(alloc, &self.words, self.input.as_bytes(), ends)
    }

    /// Whether the run wrote its text, and has its status.
    pub fn is_as_told(&self, taken: &[u8], status: u8) -> bool {
        taken == self.text.as_bytes() && status == self.status
    }

    /// Whether the run over such ends writes its text, sends it once and has its status. It reads
    /// its input or leaves it unread.
    fn is_told_over(&self, alloc: Global, ends: Ends) -> bool {
        let (did, taken) = self.run(alloc, ends);
        let is_sent = did.flushes == 1 && !did.sink_failed;
        let is_asked = (did.fetches > 0) == self.is_read && did.reads == did.fetches;
        is_sent && is_asked && self.is_as_told(&taken, did.status)
    }

    /// Whether the run does so whatever the pieces of input and text.
    pub fn is_told(&self, alloc: Global) -> bool {
        for most in [1, 2, 3, 4_096] {
            if !self.is_told_over(alloc, Ends::of(most, most)) {
                return false;
            }
        }
        let (taken, status) = run_on_bytes(alloc, &self.words, self.input.as_bytes());
        self.is_as_told(&taken, status)
    }
}
