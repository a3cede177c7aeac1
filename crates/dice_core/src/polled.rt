//! What a key has come to.
use dice_key::{Path, Universe, ValueRef};
use std::sync::Arc;

/// What a key has come to at a version.
#[derive(Drop)]
pub enum Polled<'a, U: Universe> {
    /// It has this value.
    Value(&'a ValueRef<U>),
    /// It reaches this cycle, and so has no value.
    Cycle(&'a Arc<Path<U::Key>>),
    /// Its task was given up since no memory was left. The next ask makes it anew.
    Lost,
    /// Its task has not ended.
    Pending,
    /// Nobody asked for it since the version was last opened.
    Absent,
}
