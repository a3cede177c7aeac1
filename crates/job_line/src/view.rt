//! What is known of an end of the line. It is plain data for the rule: no value of it is made.
use std::collections::LinkedList;

/// What an end knows: whether it is the putter's, the beginning of the list of puts that it has
/// seen, the places that it took, the latest first, and what a pass that it met had seen.
pub struct View<J> {
    pub putter: bool,
    pub seen: LinkedList<J>,
    pub places: LinkedList<u64>,
    pub met: LinkedList<J>,
}
