//! Tests of the universe of Buck targets, through public calls.
#![tactic(auto)]

#[cfg(test)]
mod buck;
