//! The commands, game by game: what each answers to an ID, over a source and a sink of bytes.
#![tactic(auto)]

mod answers;
mod batch;
mod check;
mod ends;
mod games;
mod generate;
mod grade;
pub mod laws;
mod played;
mod solve;

pub use answers::decimal::push_number;
pub use answers::reply::{Reply, words_reply};
pub use answers::status::{BROKEN, NO_MEMORY, RunResult, Status, Stop};
pub use batch::solve_lines;
pub use check::check_id;
pub use ends::output::deliver;
pub use ends::{CALL_LIMIT, CHUNK, Sink, Source};
pub use games::{Stores, game_named, usual_black};
pub use generate::percent::{MOST_PERCENT, Percent};
pub use generate::{Recipe, generated};
pub use grade::grade_id;
pub use grade::grades::{GradeOptions, GradedRules};
pub use solve::Task;
