//! Tests of the core through its public calls. They stand in a crate of their own, so that the core
//! is proved once and not twice.
#![tactic(auto)]

#[cfg(test)]
mod bench;
#[cfg(test)]
mod buck;
#[cfg(test)]
mod random;
#[cfg(test)]
mod tiny;
