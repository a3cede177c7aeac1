//! The jobs of an engine's core: what is done for a key outside the core, one step at a time.
#![tactic(auto)]

mod assignment;
mod job;
mod laws;
mod name;
mod parked;
mod step;
mod work;

pub use assignment::{Assignment, Earlier};
pub use job::Job;
pub use laws::{jobs_stay_true, steps_tell_the_truth, true_jobs_are_one};
pub use name::JobName;
pub use parked::Parked;
pub use step::{Report, Step};
