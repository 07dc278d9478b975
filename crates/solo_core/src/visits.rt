//! What visits of houses and of crossings keep.

pub(crate) mod bits;
pub(crate) mod crossing;
pub(crate) mod gather;
pub(crate) mod graph;
pub(crate) mod houses;
pub(crate) mod leaving;
pub(crate) mod mates;
pub(crate) mod notes;
pub(crate) mod open;
pub(crate) mod parts;
pub(crate) mod peel;
pub(crate) mod quick;
pub(crate) mod settle;
pub(crate) mod singles;
pub(crate) mod spots;
pub(crate) mod turning;
