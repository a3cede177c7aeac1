//! Values that were computed, each with the versions at which it is known to hold.
#![tactic(auto)]

mod cut;
mod entry;
mod finish;
mod found;
mod graph;
mod marks;
mod reach;
mod store;
mod users;

pub use entry::Entry;
pub use found::{Found, Why};
pub use graph::Graph;
