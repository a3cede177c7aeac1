//! The values.

use shared_text::Text;
use thiserror::Error;

/// Why a cell has no number.
#[derive(Clone, Copy, Debug, PartialEq, Eq, Hash, Drop, Error)]
pub enum Fault {
    #[error("a text is no formula")]
    Unreadable,
    #[error("a number is below 0 or above 2^64 - 1")]
    OutOfRange,
    #[error("a number is divided by 0")]
    DividedByZero,
}

/// What a key comes to.
#[derive(PartialEq, Eq, Hash, Drop)]
pub enum Value {
    /// The text of a cell.
    Text(Text),
    /// The number of a cell, or why it has none.
    Number(Result<u64, Fault>),
}
