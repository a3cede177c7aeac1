//! A map by number that takes no memory for a single entry.
#![tactic(auto)]

mod few;
mod many;
mod map;

pub use map::SmallMap;
