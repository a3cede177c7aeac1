//! The standard streams, over an input and an output each of which fails at one call.
use crate::edge::ROW;
use dice_io::{Failed, ReadFail, RealSink, RealSource, Source, read_all, write_all};
use std::alloc::Allocator;
use std::cell::Cell;
use std::fmt::Display;
use std::io::{self, BufRead, ErrorKind, Input, Lines, Print, Read};
use std::test::Fail;

/// The most bytes that one call moves.
const PIECE: usize = 10;

/// The row as an input, which fails at the call with this number, from 0.
#[derive(Drop)]
struct FailingInput {
    fails: u64,
}

#[derive(Drop)]
struct FailingReader {
    rest: &'static [u8],
    fails: u64,
    calls: u64,
}

impl Read for FailingReader {
    fn read(&mut self, buf: &mut [u8]) -> io::Result<usize> {
        let call = self.calls;
        self.calls = call.saturating_add(1);
        if call == self.fails {
            return Err(io::Error::from(ErrorKind::Other));
        }
        let n = buf.len().min(PIECE).min(self.rest.len());
        buf[..n].copy_from_slice(&self.rest[..n]);
        self.rest = &self.rest[n..];
        Ok(n)
    }
}

impl BufRead for FailingReader {
    fn fill_buf(&mut self) -> io::Result<&[u8]> {
        Ok(self.rest)
    }

    fn consume(&mut self, amount: usize) {
        self.rest = &self.rest[amount.min(self.rest.len())..];
    }
}

impl Input for FailingInput {
    type Reader = FailingReader;

    fn read_line<A: Allocator + Clone>(&self, buf: &mut String<A>) -> io::Result<usize> {
        self.reader().read_line(buf)
    }

    fn lines<A: Allocator>(&self, alloc: A) -> Lines<FailingReader, A> {
        self.reader().lines(alloc)
    }

    fn reader(&self) -> FailingReader {
        FailingReader {
            rest: ROW,
            fails: self.fails,
            calls: 0,
        }
    }
}

/// An output of the row, which fails at the call with this number, from 0.
#[derive(Drop)]
struct FailingOutput {
    fails: u64,
    calls: Cell<u64>,
    taken: Cell<usize>,
    is_row: Cell<bool>,
}

impl Print for FailingOutput {
    fn print<D: Display + Drop>(&self, _value: D) -> io::Result<()> {
        Err(io::Error::from(ErrorKind::Other))
    }

    fn println<D: Display + Drop>(&self, _value: D) -> io::Result<()> {
        Err(io::Error::from(ErrorKind::Other))
    }

    fn write_all(&self, _bytes: &[u8]) -> io::Result<()> {
        Err(io::Error::from(ErrorKind::Other))
    }

    fn write_some(&self, bytes: &[u8]) -> io::Result<usize> {
        let call = self.calls.get();
        self.calls.set(call.saturating_add(1));
        if call == self.fails {
            return Err(io::Error::from(ErrorKind::Other));
        }
        let n = bytes.len().min(PIECE);
        let from = self.taken.get();
        let to = from.saturating_add(n);
        if ROW.get(from..to) != Some(&bytes[..n]) {
            self.is_row.set(false);
        }
        self.taken.set(to);
        Ok(n)
    }
}

// The row takes four calls, and the fifth sees the end.
#[test]
fn reads_fail_at_that_very_call(rt: HostRuntime) -> Result<(), Fail> {
    let alloc = rt.alloc();
    for (fails, before) in [(0, 0), (1, 10), (2, 20), (3, 30), (4, 32)] {
        let mut source = RealSource::new(&FailingInput { fails });
        let mut into = Vec::new(alloc);
        for _ in 0..fails {
            source.read(&mut into, 100)?;
        }
        assert!(rt; into.as_slice() == &ROW[..before]);
        assert!(rt; source.read(&mut into, 100) == Err(ReadFail::Failed));
        assert!(rt; into.as_slice() == &ROW[..before]);
        assert!(rt; read_all(alloc, &mut source, 100)?.as_slice() == &ROW[before..]);
    }
    Ok(())
}

// The row takes four calls.
#[test]
fn writes_fail_at_that_very_call(rt: HostRuntime) -> Result<(), Fail> {
    for (fails, before) in [(0, 0), (1, 10), (2, 20), (3, 30)] {
        let out = FailingOutput {
            fails,
            calls: Cell::new(0),
            taken: Cell::new(0),
            is_row: Cell::new(true),
        };
        let mut sink = RealSink::new(&out);
        assert!(rt; write_all(&mut sink, ROW) == Err(Failed));
        assert!(rt; out.calls.get() == fails + 1 && out.taken.get() == before);
        write_all(&mut sink, &ROW[before..])?;
        assert!(rt; out.calls.get() == 5 && out.taken.get() == 32 && out.is_row.get());
    }
    Ok(())
}
