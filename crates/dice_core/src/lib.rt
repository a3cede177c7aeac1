//! The core of an engine: one event machine without threads.
#![tactic(auto)]

mod ask;
mod asking;
mod close;
mod commit;
mod giving;
mod jobs_out;
mod machine;
mod opening;
mod polled;
mod sessions;
mod spare;

pub use commit::CommitRefusal;
pub use dice_jobs::{Job, JobName, Step};
pub use giving::Gave;
pub use machine::Core;
pub use polled::Polled;
