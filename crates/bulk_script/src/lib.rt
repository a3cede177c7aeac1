//! The bulk script: a large script of a given number of targets.
#![tactic(auto)]

mod append;
mod bulk;
mod laws;
mod rules;

pub use bulk::{bulk_script, request_count};
pub use laws::{bulk_is_script, requests_are_counted};
