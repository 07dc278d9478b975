//! Making puzzles that have exactly one solution.
#![tactic(auto)]

mod black;
mod draws;
pub mod laws;
mod light_up;
mod made;
mod pattern;
mod solo;
mod tents;
mod thinning;
mod tries;

pub use light_up::maker::make_lights;
pub use made::{Kept, Limits, Made, MakeFault, Why};
pub use pattern::maker::make_pattern;
pub use solo::maker::make_solo;
pub use tents::maker::make_tents;
pub use thinning::clued::Clued;
