//! The commands as a library for C: each answers in memory of its caller's.
#![tactic(auto)]

mod asked;
mod calls;
mod on_bytes;
mod output;
#[cfg(test)]
mod tests;

pub use calls::{
    puzzles_check, puzzles_generate, puzzles_grade, puzzles_solve, puzzles_solve_each,
    puzzles_version,
};
pub use output::TOO_SMALL;
