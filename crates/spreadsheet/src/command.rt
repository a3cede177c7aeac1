//! The lines that the program reads.
use crate::cell::Cell;
use crate::formula::cell_of;
use std::alloc::{AllocError, Global};

/// What a line asks for.
#[derive(Clone, Copy, Debug, PartialEq, Eq)]
pub(crate) enum Command<'a> {
    /// `A1 = B1 + 2`, also with the word `set` before it: the cell gets this text.
    Set(Cell, &'a [u8]),
    /// `get A1`: what the cell comes to.
    Get(Cell),
    /// `why A1`: what was done for the cell since the last change.
    Why(Cell),
    /// Another line.
    Unknown,
}

/// The bytes that are no blanks.
pub(crate) fn without_blanks(alloc: Global, line: &[u8]) -> Result<Vec<u8>, AllocError> {
    let mut text = Vec::with_capacity(alloc, line.len())?;
    for byte in line {
        if *byte != b' ' {
            text.push(*byte)?;
        }
    }
    Ok(text)
}

/// What this line asks for. It has no blanks.
pub(crate) fn command_of(line: &[u8]) -> Command<'_> {
    match line {
        [b's', b'e', b't', rest @ ..] => setting(rest),
        [b'g', b'e', b't', name @ ..] => match cell_of(name) {
            Some(cell) => Command::Get(cell),
            None => Command::Unknown,
        },
        [b'w', b'h', b'y', name @ ..] => match cell_of(name) {
            Some(cell) => Command::Why(cell),
            None => Command::Unknown,
        },
        _ => setting(line),
    }
}

fn setting(line: &[u8]) -> Command<'_> {
    match line {
        [column, row, b'=', text @ ..] => match cell_of(&[*column, *row]) {
            Some(cell) => Command::Set(cell, text),
            None => Command::Unknown,
        },
        _ => Command::Unknown,
    }
}
