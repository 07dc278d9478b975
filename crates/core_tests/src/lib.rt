//! The tests of the libraries, each library's in a module.
//!
//! They stand above the libraries, so that no crate with code is proved twice.
#![tactic(auto)]

#[cfg(test)]
mod calls;
#[cfg(test)]
mod faults;
#[cfg(test)]
mod game_ids;
#[cfg(test)]
mod grid;
#[cfg(test)]
mod houses;
#[cfg(test)]
mod makers;
#[cfg(test)]
mod own_rules;
#[cfg(test)]
mod pattern;
#[cfg(test)]
mod rules;
#[cfg(test)]
mod small;
#[cfg(test)]
mod solo;
#[cfg(test)]
mod stores;
