//! What is said: texts with their statuses.

pub mod check_reply;
pub mod decimal;
pub mod reply;
pub mod status;
