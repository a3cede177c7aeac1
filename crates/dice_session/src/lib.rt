//! A session: an engine for one caller, and workers beside it.
#![tactic(auto)]

mod client;
mod refusal;
mod session;
mod workers;

pub use dice_engine::{Cause, Changes, Event};
pub use refusal::CommitError;
pub use session::{Found, Session};
pub use workers::Workers;
