//! Cells, and what can be asked of them.
use std::fmt::{self, Display, Formatter};

/// A cell: its column, a letter from `A` to `Z`, and its row, a digit.
#[derive(Clone, Copy, Debug, PartialEq, Eq, PartialOrd, Ord, Hash)]
pub struct Cell {
    pub column: u8,
    pub row: u8,
}

/// What can be asked for.
#[derive(Clone, Copy, Debug, PartialEq, Eq, PartialOrd, Ord, Hash)]
pub enum Key {
    /// The text of a cell, set from outside, empty at first.
    Text(Cell),
    /// The value of a cell.
    Value(Cell),
}

impl Display for Cell {
    fn fmt<W: fmt::Write>(&self, f: &mut Formatter<W>) -> fmt::Result {
        write!(f, "{}{}", char::from(self.column), char::from(self.row))
    }
}

impl Display for Key {
    fn fmt<W: fmt::Write>(&self, f: &mut Formatter<W>) -> fmt::Result {
        match self {
            Key::Text(cell) => write!(f, "the text of {cell}"),
            Key::Value(cell) => write!(f, "{cell}"),
        }
    }
}
