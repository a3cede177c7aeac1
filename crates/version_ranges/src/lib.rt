//! Sets of versions, kept as sorted ranges.
//!
//! A version is a `u64`. A [`Ranges`] lists disjoint half-open ranges in rising order that do not
//! touch, so that two sets with the same members are the same list; the last range may be open,
//! which means that it has no end.
#![tactic(auto)]

mod half_open;
mod laws;
mod memory;
mod merge;
mod place;
mod search;
mod set;

pub use half_open::Range;
pub use laws::{open_has_a_tail, same_members};
pub use memory::NoMemory;
pub use set::Ranges;
