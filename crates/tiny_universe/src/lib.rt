//! An example universe: cells that are set, and keys computed from them. It shows how a universe is
//! written, and tests run on it.
#![tactic(auto)]

mod fronts;
mod place;
mod tiny;

pub use fronts::{CellKey, FollowKey, ParityKey};
pub use place::{Place, Value};
pub use tiny::{Run, Tiny};
