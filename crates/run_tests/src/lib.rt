//! Tests of whole runs of the program, through public calls.
#![tactic(auto)]

#[cfg(test)]
mod scripts;
#[cfg(test)]
mod workers;
