//! Whether a wait would close a cycle, and how many tasks ask for one, directly or through others.
#![tactic(auto)]

mod above;
mod guard;
mod laws;

pub use above::count_above;
pub use guard::{would_close, would_close_placed};
pub use laws::no_cycle_stays;
