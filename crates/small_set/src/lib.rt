//! Sets that mostly have few members.
#![tactic(auto)]

mod numbers;
mod set;

pub use numbers::NumberSet;
pub use set::SmallSet;
