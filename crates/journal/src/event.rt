//! Events, as they are kept, and as contracts see them.

use crate::changes::Changes;
use std::collections::LinkedList;
use std::sync::Arc;

/// Why a key was started at a version.
#[derive(Drop)]
pub enum Cause<K: Drop> {
    /// The key was never decided at any version.
    New,
    /// Its value at this version, which was looked at, is transient.
    Transient(u64),
    /// At this version, which was looked at, this dependency had another value.
    Differs(u64, Arc<K>),
}

/// What happened. Here `by` is the number of the seat that acts. A transaction or an ask is named
/// by the index of the event that made it. A base is a version at which the key was decided before,
/// and whose value and trace were looked at.
pub enum Event<K: Drop, V: Drop> {
    /// By a seat these changes were committed.
    Commit(u64, Changes<K, V>),
    /// By a seat a transaction was opened at a version.
    Open(u64, u64),
    /// By the seat of its Open this transaction was closed.
    Close(u64, u64),
    /// By a seat in this transaction a key was asked for.
    Ask(u64, u64, Arc<K>),
    /// By the seat of its Ask this ask was left.
    Leave(u64, u64),
    /// At a version the computing of a key was begun.
    Start(u64, Arc<K>, Cause<K>),
    /// At a version a key keeps the value of its base.
    Keep(u64, Arc<K>, u64),
    /// At a version the computing of a key ended with a value.
    End(u64, Arc<K>),
    /// At a version a key was found to reach a cycle.
    Cyclic(u64, Arc<K>),
    /// At a version nobody waits for a key any more.
    Drop(u64, Arc<K>),
    /// At a version a key was given up since no memory was left.
    Lost(u64, Arc<K>),
}

// (One function for all places that drop one: a derived drop is written out at each.)
impl<K: Drop, V: Drop> Drop for Event<K, V> {
    fn drop(self) {
        match self {
            Event::Commit(_, _changes) => {}
            Event::Open(_, _) | Event::Close(_, _) | Event::Leave(_, _) => {}
            Event::Ask(_, _, _key) | Event::Keep(_, _key, _) => {}
            Event::Start(_, _key, _cause) => {}
            Event::End(_, _key) | Event::Cyclic(_, _key) => {}
            Event::Drop(_, _key) | Event::Lost(_, _key) => {}
        }
    }
}

/// A cause as contracts see it, without pointers. No value of it is made.
#[derive(Drop)]
pub enum Reason<K: Drop> {
    New,
    Transient(u64),
    Differs(u64, K),
}

/// An event as contracts see it, without pointers. No value of it is made.
#[derive(Drop)]
pub enum Told<K: Drop, V: Drop> {
    Commit(u64, LinkedList<(K, V)>),
    Open(u64, u64),
    Close(u64, u64),
    Ask(u64, u64, K),
    Leave(u64, u64),
    Start(u64, K, Reason<K>),
    Keep(u64, K, u64),
    End(u64, K),
    Cyclic(u64, K),
    Drop(u64, K),
    Lost(u64, K),
}
