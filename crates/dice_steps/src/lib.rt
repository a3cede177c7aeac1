//! What is made of a step with the tasks of its version in hand: a value ends its task, and those
//! that waited for it go on; a batch is planned, and makes its task wait, go on, or end with a
//! cycle.
#![tactic(auto)]

mod agreed;
mod batch;
mod finish;
mod noted;
mod plan;
mod shared;
mod wake;
mod woken;

pub use batch::{ask_batch, give_up};
pub use finish::{differs, done, same};
pub use noted::note;
pub use shared::Shared;
