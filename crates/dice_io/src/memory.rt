//! A source and a sink in memory that move a few bytes a call and fail at chosen calls, for tests
//! of what stands on them.
ghost use Rattle.std.specs.Prelude.{◌≡◌, ◌≤◌, ◌<◌, ◌++◌, ◌-◌, ◌==◌, ◌&&◌, ◌||◌, ℕ, List, [], length, Option, Some, min, take, drop, true, IfOk, OnOk, OnErr, IsErrOf, IsErr, is_err, nat_lt};
ghost use Rattle.dice_io.specs.Streams.{Reads, Unread, Takes, Unchanged, one_more};
ghost use Rattle.dice_io.specs.Held.{Feed, Fill, is_among};

use crate::edge::{Failed, NoMemory, ReadFail, Sink, Source};
use crate::sure::SureSource;
use std::alloc::Global;
use std::marker::Model;

/// Bytes in memory. Each call reads at most a piece of them, and the calls with chosen numbers
/// fail.
pub struct MemorySource {
    bytes: SureSource,
    piece: usize,
    fails: Vec<u64>,
    calls: u64,
    faults: u64,
}

// (One function for all places that drop one: a derived drop is written out at each.)
impl Drop for MemorySource {
    fn drop(self) {
        let MemorySource {
            bytes: _bytes,
            piece: _,
            fails: _fails,
            calls: _,
            faults: _,
        } = self;
    }
}

impl Model for MemorySource {
    ghost use Rattle.std.specs.Prelude.{◌≤◌};
    ghost use Rattle.dice_io.specs.Held.{Feed};

    ghost Value = { Feed };

    ghost view = { λ s. record {
      left = s.bytes;
      piece = s.piece;
      fails = s.fails.items;
      calls = s.calls;
      faults = s.faults;
    } };

    ghost invariant = { λ s. 1 ≤ s.piece };
}

impl MemorySource {
    /// A source of these bytes that moves at most `piece` of them a call, and fails at the calls
    /// numbered in `fails`, from 0. It takes no memory. A call looks through all of `fails`.
    pub fn new(bytes: Vec<u8>, piece: usize, fails: Vec<u64>) -> MemorySource
        requires { 1 ≤ piece }
        ensures { result
            ≡ record
            { left = bytes.items; piece = piece; fails = fails.items; calls = 0; faults = 0 } }
    {
        MemorySource {
            bytes: SureSource::new(bytes),
            piece,
            fails,
            calls: 0,
            faults: 0,
        }
    }

    /// How many faults there were.
    pub fn faults(&self) -> u64
        ensures { result ≡ self.now.faults }
    {
        self.faults
    }
}

impl Source for MemorySource {
    ghost left = { λ s. Some s.left };

    ghost faults = { λ s. s.faults };

    fn read(&mut self, into: &mut Vec<u8>, most: usize) -> Result<usize, ReadFail>
        requires { 1 ≤ most }
        ensures reads { IfOk result (λ n. Reads (Some self.old.left) (Some self.new.left)
            into.old.items into.new.items most n) }
        ensures kept { OnErr result (into.new.items ≡ into.old.items) }
        ensures unread { OnErr result (Unread (Some self.old.left) (Some self.new.left)) }
        ensures counted { self.old.faults ≤ self.new.faults }
        ensures steady { OnOk result (self.new.faults ≡ self.old.faults) }
        ensures spared { IsErrOf result ReadFail.NoMemory → self.new.faults ≡ self.old.faults }
        ensures failed { IsErrOf result ReadFail.Failed
            → self.new.faults ≡ one_more self.old.faults }
        // It fails exactly at the calls that it was given, and moves as much as it may.
        ensures chosen { is_among self.old.calls self.old.fails ≡ true
            → IsErrOf result ReadFail.Failed }
        ensures only { IsErrOf result ReadFail.Failed
            → is_among self.old.calls self.old.fails ≡ true }
        ensures most { IfOk result (λ n. n ≡ min (min most self.old.piece) (length self.old.left)) }
        ensures next { self.new.calls ≡ one_more self.old.calls }
        ensures same { (self.new.piece ≡ self.old.piece) × (self.new.fails ≡ self.old.fails) }
    {
        let call = self.calls;
        self.calls = call.saturating_add(1);
        if self.fails.contains(&call) {
            self.faults = self.faults.saturating_add(1);
            return Err(ReadFail::Failed);
        }
        self.bytes.read(into, most.min(self.piece))
    }
}

/// Keeps what it takes, at most a piece a call, in room that is made ahead. The calls with chosen
/// numbers fail, and so does each call with a byte if no room is left.
pub struct MemorySink {
    bytes: Vec<u8>,
    room: usize,
    piece: usize,
    fails: Vec<u64>,
    calls: u64,
    faults: u64,
}

// (One function for all places that drop one: a derived drop is written out at each.)
impl Drop for MemorySink {
    fn drop(self) {
        let MemorySink {
            bytes: _bytes,
            room: _,
            piece: _,
            fails: _fails,
            calls: _,
            faults: _,
        } = self;
    }
}

impl Model for MemorySink {
    ghost use Rattle.std.specs.Prelude.{◌≤◌, length, vec_capacity};
    ghost use Rattle.dice_io.specs.Held.{Fill};

    ghost Value = { Fill };

    ghost view = { λ s. record {
      taken = s.bytes.items;
      room = s.room;
      piece = s.piece;
      fails = s.fails.items;
      calls = s.calls;
      faults = s.faults;
    } };

    ghost invariant = { λ s. (1 ≤ s.piece) × (length s.bytes.items ≤ s.room)
        × (s.room ≤ vec_capacity s.bytes) };
}

impl MemorySink {
    /// A sink with room for that many bytes, which moves at most `piece` of them a call, and fails
    /// at the calls numbered in `fails`, from 0. A call looks through all of `fails`.
    pub fn new(
        alloc: Global,
        piece: usize,
        fails: Vec<u64>,
        room: usize,
    ) -> Result<MemorySink, NoMemory>
        requires { 1 ≤ piece }
        ensures { IfOk result (λ s. s
            ≡ record {
              taken = [];
              room = room;
              piece = piece;
              fails = fails.items;
              calls = 0;
              faults = 0;
            }) }
    {
        let bytes = Vec::with_capacity(alloc, room)?;
        Ok(MemorySink {
            bytes,
            room,
            piece,
            fails,
            calls: 0,
            faults: 0,
        })
    }

    /// All that was taken.
    pub fn bytes(&self) -> &[u8]
        ensures { result.now ≡ self.now.taken }
    {
        self.bytes.as_slice()
    }

    /// How many faults there were.
    pub fn faults(&self) -> u64
        ensures { result ≡ self.now.faults }
    {
        self.faults
    }
}

impl Sink for MemorySink {
    ghost taken = { λ s. Some s.taken };

    ghost faults = { λ s. s.faults };

    fn write(&mut self, bytes: &[u8]) -> Result<usize, Failed>
        ensures takes { IfOk result
            (λ n. Takes (Some self.old.taken) (Some self.new.taken) bytes.now n) }
        ensures some { IfOk result (λ n. 0 < length bytes.now → 0 < n) }
        ensures kept { OnErr result (Unchanged (Some self.old.taken) (Some self.new.taken)) }
        ensures counted { self.old.faults ≤ self.new.faults }
        ensures steady { OnOk result (self.new.faults ≡ self.old.faults) }
        ensures failed { IsErr result → self.new.faults ≡ one_more self.old.faults }
        // It fails exactly at the calls that it was given and if no room is left for a byte, and
        // moves as much as it may.
        ensures chosen { is_err result
            ≡ (is_among self.old.calls self.old.fails
            || (nat_lt 0 (length bytes.now) && (length self.old.taken == self.old.room))) }
        ensures most { IfOk result (λ n. n
            ≡ min (min (length bytes.now) self.old.piece) (self.old.room - length self.old.taken)) }
        ensures next { self.new.calls ≡ one_more self.old.calls }
        ensures same { (self.new.room ≡ self.old.room) × (self.new.piece ≡ self.old.piece)
            × (self.new.fails ≡ self.old.fails) }
    {
        let call = self.calls;
        self.calls = call.saturating_add(1);
        let is_full = !bytes.is_empty() && self.bytes.len() == self.room;
        if self.fails.contains(&call) || is_full {
            self.faults = self.faults.saturating_add(1);
            return Err(Failed);
        }
        let n = bytes
            .len()
            .min(self.piece)
            .min(self.room - self.bytes.len());
        self.bytes.extend_from_slice(&bytes[..n]).unwrap();
        Ok(n)
    }
}
