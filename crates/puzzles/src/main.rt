//! Solves logic puzzles by their game IDs.
#![tactic(auto)]

pub mod command_line;
pub mod run;
#[cfg(test)]
mod tests;
pub mod words;

use crate::run::run;
use commands::NO_MEMORY;
use ends::{ReadEnd, WriteEnd};
use std::env;
use std::io::ErrorKind;
use std::process::ExitCode;

fn main(rt: HostRuntime) -> ExitCode {
    // the words after the program's name; words that are no text count as none
    let words = match env::args(&rt) {
        Ok(args) => args.skip(1).collect(rt.alloc()).ok(),
        Err(error) => match error.kind() {
            ErrorKind::OutOfMemory => None,
            _ => Some(Vec::<String>::new(rt.alloc())),
        },
    };
    let Some(words) = words else {
        return ExitCode::from(NO_MEMORY);
    };
    let mut input = ReadEnd::new(rt.stdin());
    let mut output = WriteEnd::new(rt.stdout());
    ExitCode::from(run(rt.alloc(), words.as_slice(), &mut input, &mut output))
}
