//! Light Up and Tents: what their rules are to a search, and the checks of a grid.
#![tactic(auto)]

mod count;
pub mod laws;
mod light_up;
mod planes;
mod tents;

pub use count::game::CountGame;
pub use count::house::{Bounds, House};
pub use count::rules::CountRules;
pub use light_up::cells::is_white;
pub use light_up::check::check_lights;
pub use light_up::fault::LightFault;
pub use light_up::rules::LightRules;
pub use light_up::sight::{count_beside, sees_a_bulb};
pub use planes::visit::{Part, Parts, visit};
pub use tents::check::check_tents;
pub use tents::fault::TentFault;
pub use tents::rules::TentRules;
pub use tents::touch::touches_tent;
