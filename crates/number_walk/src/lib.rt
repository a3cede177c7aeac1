//! A walk along the waits of numbers, which meets each number at most once.
#![tactic(auto)]

mod trail;
mod walk;

pub use walk::{Waits, all_from, way};
