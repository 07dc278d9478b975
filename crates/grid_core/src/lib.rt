//! Sizes, grids, boards, planes of two values, the regions and lines of a grid, and pairings.
#![tactic(auto)]

mod augmenting;
mod board;
mod fixed;
mod frontier;
mod grid;
mod lines;
mod mates;
mod pairing;
mod planes;
mod regions;
mod size;

pub use board::Board;
pub use fixed::Fixed;
pub use grid::Grid;
pub use lines::{line_count, line_len, line_place, line_value};
pub use pairing::{Edges, Paired, Pairing};
pub use planes::Planes;
pub use planes::line::Line;
pub use planes::touched_lines::Touched;
pub use planes::word::Word;
pub use regions::{beside, block_place, column_place, diagonal_place, row_place, step};
pub use size::{MAX_SIDE, Size};
