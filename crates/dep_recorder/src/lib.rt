//! What a run asked: it is recorded as a trace, and a trace is checked again at another version.
#![tactic(auto)]

mod check;
mod extended;
mod laws;
mod recorder;
mod same;
mod trace;

pub use check::{Check, Next, copied_keys};
pub use laws::{checks_are_exact, recordings_go_with_runs};
pub use recorder::Recorder;
pub use trace::Trace;
