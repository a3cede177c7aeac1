//! Where a task stands: whether it checks its dependencies, computes, or has ended, and what it
//! needs next.
#![tactic(auto)]

mod state;

pub use state::{Need, Outcome, Stage, TaskState};
