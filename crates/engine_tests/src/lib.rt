//! Tests of the engine and of its turns, through public calls. They stand in a crate of their own,
//! so that the engine is proved once and not twice, and does not stand on the universes that they
//! run on.
#![tactic(auto)]

#[cfg(test)]
mod buck;
#[cfg(test)]
mod tiny;
#[cfg(test)]
mod turns;
#[cfg(test)]
mod way;
