//! What the IDs of all games have in common: the part before the colon, and why an ID is refused.

pub(crate) mod fault;
pub(crate) mod game;
pub(crate) mod head;
pub(crate) mod text;
