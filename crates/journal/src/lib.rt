//! The journal of an engine: its events, what they say, and which journal is lawful.
#![tactic(auto)]

mod changes;
mod event;
mod journal_of;
mod laws;
mod line;

pub use changes::Changes;
pub use event::{Cause, Event, Reason, Told};
pub use journal_of::Journal;
pub use laws::{journals_are_read, lawful_begins};
