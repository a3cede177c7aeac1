//! Standard input and standard output. Those of the process tell no bytes: what it reads and writes
//! is trusted.
ghost use Rattle.std.specs.Prelude.{◌≡◌, ◌≤◌, ◌<◌, ◌++◌, ◌+◌, take, drop, List, length, None, IfOk, OnOk, OnErr, IsErrOf, IsErr};
ghost use Rattle.std.specs.Io.KnownBytes.{ReadConsumes, WriteAppends};
ghost use Rattle.dice_io.specs.Streams.{Reads, Unread, Takes, Unchanged, one_more};

use crate::edge::{Failed, ReadFail, Sink, Source};
use std::io::{self, Input, Print, Printer, Read, Write};

/// The most bytes of one read.
const PIECE: usize = 65_536;

/// Standard input. It tells the bytes that its reader knows to be left; the reader of the process
/// knows none.
#[derive(Drop)]
pub struct RealSource<R: Input> {
    reader: R::Reader,
    faults: u64,
}

impl<R: Input> RealSource<R> {
    /// The standard input of the process. Only one should stand at a time, since each may read
    /// ahead.
    pub fn new(rt: &R) -> RealSource<R>
        ensures { result.faults ≡ 0 }
    {
        RealSource {
            reader: rt.reader(),
            faults: 0,
        }
    }
}

impl<R: Input> Source for RealSource<R> {
    ghost left = { λ s. R.Reader.remaining s.reader };

    ghost faults = { λ s. s.faults };

    fn read(&mut self, into: &mut Vec<u8>, most: usize) -> Result<usize, ReadFail> {
        let start = into.len();
        into.resize(start + most.min(PIECE), 0)?;
        match read_behind(&mut self.reader, into, start) {
            Ok(n) => {
                into.truncate(start + n);
                Ok(n)
            }
            Err(_) => {
                into.truncate(start);
                self.faults = self.faults.saturating_add(1);
                Err(ReadFail::Failed)
            }
        }
    }
}

// One read into what stands from `start` on. If the bytes that the reader has left are known, it
// loses those that were read.
fn read_behind<R: Read>(reader: &mut R, bytes: &mut [u8], start: usize) -> io::Result<usize>
    requires { start < length bytes.old }
    ensures few { IfOk result (λ n. start + n ≤ length bytes.old) }
    ensures front { take start bytes.new ≡ take start bytes.old }
    ensures moved { ReadConsumes (R.remaining reader.old) (R.remaining reader.new) result
        (drop start bytes.new) }
{
    reader.read(&mut bytes[start..])
}

/// Standard output. It tells no bytes.
#[derive(Drop)]
pub struct RealSink<'a, P: Print> {
    out: Printer<'a, P>,
    faults: u64,
}

impl<'a, P: Print> RealSink<'a, P> {
    /// The standard output of the process.
    pub fn new(rt: &'a P) -> RealSink<'a, P>
        ensures { result.faults ≡ 0 }
    {
        RealSink {
            out: io::writer(rt),
            faults: 0,
        }
    }
}

impl<P: Print> Sink for RealSink<'_, P> {
    ghost taken = { λ s. None };

    ghost faults = { λ s. s.faults };

    fn write(&mut self, bytes: &[u8]) -> Result<usize, Failed> {
        write_once(&mut self.out, bytes, &mut self.faults)
    }
}

// One write of bytes from the front, which counts its fault. If the bytes that the writer holds
// are known, they gain those that were written.
fn write_once<W: Write>(out: &mut W, bytes: &[u8], faults: &mut u64) -> Result<usize, Failed>
    ensures few { IfOk result (λ n. n ≤ length bytes.now) }
    ensures some { IfOk result (λ n. 0 < length bytes.now → 0 < n) }
    ensures moved { WriteAppends (W.contents out.old) (W.contents out.new) result bytes.now }
    ensures counted { faults.old ≤ faults.new }
    ensures steady { OnOk result (faults.new ≡ faults.old) }
    ensures failed { IsErr result → faults.new ≡ one_more faults.old }
{
    match out.write(bytes) {
        Ok(n) if n > 0 || bytes.is_empty() => Ok(n),
        _ => {
            *faults = faults.saturating_add(1);
            Err(Failed)
        }
    }
}
