//! The keys and the values.

/// A key.
#[derive(Clone, Copy, Debug, PartialEq, Eq, PartialOrd, Ord, Hash)]
pub enum Place {
    /// A number that is set from outside, 0 at first.
    Cell(u32),
    /// The number in the cell that this cell's number names, taken modulo 2^32.
    Follow(u32),
    /// Whether what `Follow` gives is odd: 0 or 1.
    Parity(u32),
    /// The sum of two cells, modulo 2^64.
    Sum(u32, u32),
    /// The version at which it is read.
    Clock,
    /// Each of the two is what the other is: neither has a value.
    Ring(bool),
}

/// A value.
#[derive(Clone, Copy, Debug, PartialEq, Eq, Hash)]
pub enum Value {
    /// A number, which may be used again at later versions.
    Number(u64),
    /// What the clock showed: it is not used again at later versions.
    Reading(u64),
}
