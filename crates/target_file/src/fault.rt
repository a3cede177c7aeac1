//! What can go wrong.
ghost use Rattle.std.specs.Prelude.{Some};
ghost use Rattle.target_file.specs.Faults.{fault_text};

use std::alloc::{AllocError, AllocFailed};
use std::error::Error;
use std::fmt;

/// Memory was refused.
#[derive(Clone, Copy, Debug, PartialEq, Eq)]
pub struct NoMemory;

impl From<AllocError> for NoMemory {
    fn from(_: AllocError) -> NoMemory {
        NoMemory
    }
}

impl<T: Drop> From<AllocFailed<T>> for NoMemory {
    fn from(_: AllocFailed<T>) -> NoMemory {
        NoMemory
    }
}

/// Why a target file was not read.
#[derive(Clone, Copy, Debug, PartialEq, Eq)]
pub enum FileFault {
    /// The bytes are no target file. `line` is the line of the first byte with which no target file
    /// goes on, or of the end if every prefix begins a target file.
    Bad { line: u64 },
    /// Memory was refused.
    NoMemory,
}

impl fmt::Display for FileFault {
    ghost output = { λ fault. Some (fault_text fault) };

    fn fmt<W: fmt::Write>(&self, f: &mut fmt::Formatter<W>) -> fmt::Result {
        match self {
            FileFault::Bad { line } => write!(f, "bad target file, line {line}"),
            FileFault::NoMemory => f.write_str("out of memory"),
        }
    }
}

impl Error for FileFault {}
