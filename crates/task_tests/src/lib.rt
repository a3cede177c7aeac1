//! Tests of tasks, those who ask for them, their waits, their jobs, and the journal, through public
//! calls.
#![tactic(auto)]

#[cfg(test)]
mod cycles;
#[cfg(test)]
mod events;
#[cfg(test)]
mod jobs;
#[cfg(test)]
mod sharing;
#[cfg(test)]
mod states;
