//! What is known of a seat. These are plain data for the rule and for contracts: no value of them
//! is made.
use std::collections::LinkedList;

/// Where a seat is. A ticket is a number without end, and the word that is drawn is that number
/// modulo 2^64.
pub enum Stage {
    /// Outside a turn.
    Away,
    /// It waits with this ticket.
    Waits(u64),
    /// It has the state.
    Serves(u64),
    /// The state is back, and its version is not shown yet.
    Raises,
    /// It took the state out for good.
    Empties(u64),
    /// It was joined to another seat.
    Spent,
}

/// What is noted of a seat that was joined to another one: its number and its events, what the seat
/// that took it in had seen, and what it had seen itself.
pub struct Note<E> {
    pub number: u64,
    pub mine: LinkedList<E>,
    pub seen: LinkedList<E>,
    pub theirs: LinkedList<E>,
}

/// All that a seat knows: `writers` and `mark` are the turnstile's, and the spare numbers go from `spare_start`
/// up to `spare_end`, which is not one of them.
pub struct View<E> {
    pub stage: Stage,
    pub number: u64,
    pub spare_start: u64,
    pub spare_end: u64,
    pub seen: LinkedList<E>,
    pub mine: LinkedList<E>,
    pub ended: LinkedList<Note<E>>,
    pub floor: u64,
    pub left: (u64, u64, u64),
    pub turns: u64,
    pub writers: u64,
    pub mark: (u64, u64),
}
