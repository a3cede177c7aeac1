//! Tests of a session, on the example universe.
#![tactic(auto)]

#[cfg(test)]
mod tiny;
