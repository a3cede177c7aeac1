//! Tests of the line of jobs and of the shelf, through public calls. They stand in a crate of their
//! own, so that what they test is proved once and not twice.
#![tactic(auto)]

#[cfg(test)]
mod jobs;
#[cfg(test)]
mod values;
