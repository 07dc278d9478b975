//! Pattern: what a visit of a line strikes, and the check of a grid.
#![tactic(auto)]

mod check;
mod fault;
pub mod laws;
mod line_cells;
mod line_clue;
mod line_scratch;
mod lines;
mod meets;
mod planes;
mod slots;
mod table;
mod track;

pub use check::check_pattern;
pub use fault::PatternFault;
pub use line_scratch::LineScratch;
pub use lines::PatternLines;
