//! Solo: its rule sets, and the check of a grid.
#![tactic(auto)]

mod check;
mod fault;
mod houses;
pub mod laws;
mod notes;
mod rule_sets;
mod start;
mod visits;

pub use check::check_solo;
pub use fault::SoloFault;
pub use houses::house::NamedHouse;
pub use houses::numbers::visit_name;
pub use houses::visit::VisitName;
pub use notes::{CrossingNotes, OpenNotes};
pub use rule_sets::{Crossings, Singles, SoloCrossings, SoloFillings, SoloHouses, SoloSingles};
