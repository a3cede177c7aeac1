//! What a source and a sink promise.
ghost use Rattle.std.specs.Prelude.{◌≡◌, ◌≤◌, ◌<◌, ℕ, List, length, Option, Some, codes, IfOk, OnOk, OnErr, IsErrOf, IsErr};
ghost use Rattle.dice_io.specs.Faults.{read_fail_text};
ghost use Rattle.dice_io.specs.Streams.{Reads, Unread, Takes, Unchanged, one_more};

use std::alloc::AllocError;
use std::error::Error;
use std::fmt;

/// Memory was refused.
#[derive(Clone, Copy, Debug, PartialEq, Eq, Drop)]
pub struct NoMemory;

impl fmt::Display for NoMemory {
    ghost output = { λ _. Some (codes "no memory") };

    fn fmt<W: fmt::Write>(&self, f: &mut fmt::Formatter<W>) -> fmt::Result {
        f.write_str("no memory")
    }
}

impl Error for NoMemory {}

impl From<AllocError> for NoMemory {
    fn from(_error: AllocError) -> NoMemory {
        NoMemory
    }
}

/// Why nothing was read: the source failed, or there was no memory for the bytes.
#[derive(Clone, Copy, Debug, PartialEq, Eq, Drop)]
pub enum ReadFail {
    /// The source failed.
    Failed,
    /// Memory was refused.
    NoMemory,
}

impl fmt::Display for ReadFail {
    ghost output = { λ fail. Some (read_fail_text fail) };

    fn fmt<W: fmt::Write>(&self, f: &mut fmt::Formatter<W>) -> fmt::Result {
        f.write_str(match self {
            ReadFail::Failed => "read failed",
            ReadFail::NoMemory => "no memory",
        })
    }
}

impl Error for ReadFail {}

impl From<AllocError> for ReadFail {
    ghost use Rattle.std.specs.Prelude.{◌≡◌};
    ghost use Rattle.dice_io.specs.declared.edge.ReadFail.TheVariants as fail;

    ghost from_gives = { λ _ e. e ≡ fail.NoMemory };

    fn from(_error: AllocError) -> ReadFail {
        ReadFail::NoMemory
    }
}

/// The sink failed.
#[derive(Clone, Copy, Debug, PartialEq, Eq, Drop)]
pub struct Failed;

impl fmt::Display for Failed {
    ghost output = { λ _. Some (codes "write failed") };

    fn fmt<W: fmt::Write>(&self, f: &mut fmt::Formatter<W>) -> fmt::Result {
        f.write_str("write failed")
    }
}

impl Error for Failed {}

/// Where bytes are read from.
///
/// A source may tell which bytes are left; one that stands over a file or a pipe tells none. It
/// counts its faults: a call that answers `Failed` counts one, up to the greatest number that the
/// count can hold, and no other call counts any.
pub trait Source {
    /// The bytes that are left, if they are told.
    ghost left: { Self → Option (List ℕ) };

    /// How many faults there were.
    ghost faults: { Self → ℕ };

    /// Reads at most `most` bytes to the end of `into`, and says how many. A source that tells its
    /// bytes before the call tells them after it, and answers 0 only if none are left. At an error
    /// nothing is appended; if the bytes are told, none is used up.
    fn read(&mut self, into: &mut Vec<u8>, most: usize) -> Result<usize, ReadFail>
        requires { 1 ≤ most }
        ensures reads { IfOk result
            (λ n. Reads (left self.old) (left self.new) into.old.items into.new.items most n) }
        ensures kept { OnErr result (into.new.items ≡ into.old.items) }
        ensures unread { OnErr result (Unread (left self.old) (left self.new)) }
        ensures counted { faults self.old ≤ faults self.new }
        ensures steady { OnOk result (faults self.new ≡ faults self.old) }
        ensures spared { IsErrOf result ReadFail.NoMemory → faults self.new ≡ faults self.old }
        ensures failed { IsErrOf result ReadFail.Failed
            → faults self.new ≡ one_more (faults self.old) };
}

/// Where bytes are written to.
///
/// A sink may tell which bytes it took; one that stands over a file or a pipe tells none. It counts
/// its faults: a call that fails counts one, up to the greatest number that the count can hold, and
/// no other call counts any.
pub trait Sink {
    /// The bytes that were taken, if they are told.
    ghost taken: { Self → Option (List ℕ) };

    /// How many faults there were.
    ghost faults: { Self → ℕ };

    /// Takes some of the bytes from the front, and says how many: at least one, if the piece is not
    /// empty. A sink that tells its bytes after the call told them before it. At an error a sink
    /// that tells its bytes took none.
    fn write(&mut self, bytes: &[u8]) -> Result<usize, Failed>
        ensures takes { IfOk result (λ n. Takes (taken self.old) (taken self.new) bytes.now n) }
        ensures some { IfOk result (λ n. 0 < length bytes.now → 0 < n) }
        ensures kept { OnErr result (Unchanged (taken self.old) (taken self.new)) }
        ensures counted { faults self.old ≤ faults self.new }
        ensures steady { OnOk result (faults self.new ≡ faults self.old) }
        ensures failed { IsErr result → faults self.new ≡ one_more (faults self.old) };
}
