//! Tests of the edge of the program: its words, its input and its output, through public calls.
#![tactic(auto)]

#[cfg(test)]
mod edge;
#[cfg(test)]
mod streams;
#[cfg(test)]
mod words;
