//! Seeds of hash tables.
#![tactic(auto)]

mod seed;

pub use seed::Seed;
