//! Boards closed and searched, for any lawful rules.
#![tactic(auto)]

mod closing;
mod house_rules;
mod houses;
pub mod laws;
mod mode;
mod needs;
mod notes;
mod planes;
mod rule_set;
mod rules;
mod search;
mod store;
mod trail;
mod waits;

pub use house_rules::{HouseRules, HouseScratch};
pub use houses::list::{FrozenList, HouseList};
pub use houses::visit::{apply, gather, has_bit};
pub use laws::trials_made_are_the_first;
pub use mode::{Closing, Mode, Taken};
pub use needs::{Needs, needs_for};
pub use notes::plain::PlainNotes;
pub use notes::{Noted, Notes};
pub use planes::position::PlanePosition;
pub use planes::rules::{BinaryRules, PlaneNotes, PlaneRules};
pub use rule_set::{RuleParts, RuleSet};
pub use rules::Rules;
pub use search::position::{Position, Searchable};
pub use search::walk::Verdict;
pub use store::{Sizes, Store};
pub use trail::plain::PlainPosition;
pub use trail::position::TrailPosition;
