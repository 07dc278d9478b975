//! Game IDs of four games of Simon Tatham's Portable Puzzle Collection: the puzzles, their readers
//! and their writers; and printed grids.
//!
//! An ID is a size, `:` and a description. The general form is that of the collection's manual; the
//! descriptions are those that the source code of each game writes. The form of printed grids is
//! this project's own.
#![tactic(auto)]

mod grids;
mod id;
pub mod laws;
mod light_up;
mod lines;
mod pattern;
mod solo;
mod tents;
mod text;

pub use grids::printed::Printed;
pub use grids::readable::Readable;
pub use grids::reader::read_grid;
pub use grids::writer::push_grid;
pub use id::fault::IdFault;
pub use id::game::Game;
pub use id::head::{MAX_ID, MAX_NUMBERS, SizeRead, read_size};
pub use light_up::cell::LightCell;
pub use light_up::id::{read_lights, write_lights};
pub use light_up::puzzle::LightPuzzle;
pub use pattern::id::{read_pattern, write_pattern};
pub use pattern::puzzle::PatternPuzzle;
pub use solo::id::{read_solo, write_solo};
pub use solo::puzzle::SoloPuzzle;
pub use tents::id::{read_tents, write_tents};
pub use tents::puzzle::TentsPuzzle;
