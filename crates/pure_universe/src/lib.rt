//! Universes whose keys look at no version: a table of next moves is enough.
#![tactic(auto)]

mod moves;
mod plain;
mod pure;

pub use moves::{ask, ask_all, ask_both, done};
pub use plain::{Plain, Run};
pub use pure::Pure;
