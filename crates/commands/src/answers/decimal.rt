//! Numbers in texts.
ghost use Rattle.std.specs.Prelude.{◌+◌, ◌≤◌, ◌++◌, decimal, OnOk, length, string_len};
ghost use Rattle.gameid_core.specs.GridTexts.{Adds};

use itoa::{Buffer, Integer};
use std::alloc::AllocError;

/// Adds a number to a text, in decimal, which is at most 20 digits.
pub fn push_number(text: &mut String, number: usize) -> Result<(), AllocError>
    ensures number { OnOk result (Adds (decimal number) text.old text.new) }
    ensures short { OnOk result (string_len text.new ≤ string_len text.old + 20) }
{
    let mut buffer = Buffer::new();
    text.push_str(buffer.format(number))
}

/// Adds words to a text, and then a number in decimal, of any type of integers.
pub fn push_numbered<I: Integer>(
    text: &mut String,
    words: &str,
    number: I,
) -> Result<(), AllocError>
    ensures words { OnOk result (Adds (words.now ++ I.text number) text.old text.new) }
    ensures short { OnOk result (string_len text.new
        ≤ string_len text.old + length words.now + I.MAX_STR_LEN) }
{
    let mut buffer = Buffer::new();
    text.push_str(words)?;
    text.push_str(buffer.format(number))
}
