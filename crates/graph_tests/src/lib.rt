//! Tests of the graph of finished values, through public calls.
#![tactic(auto)]

#[cfg(test)]
mod graph;
