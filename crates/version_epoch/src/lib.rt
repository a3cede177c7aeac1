//! How often each version is open, and how often an epoch of it began.
//!
//! An epoch of a version begins when it goes from no open transaction to one, and ends when the
//! last one closes.
#![tactic(auto)]

mod memory;
mod open_versions;

pub use memory::NoMemory;
pub use open_versions::{Standing, Tracker};
