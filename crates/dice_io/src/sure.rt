//! A source and a sink in memory that never fail.
ghost use Rattle.std.specs.Prelude.{◌≡◌, ◌≤◌, ◌<◌, ◌++◌, ◌+◌, ℕ, List, [], length, Option, Some, min, take, drop, true, false, IfOk, OnOk, OnErr, IsErrOf, IsErr, IsOk, if◌then◌else◌};
ghost use Rattle.std.specs.Option.{option_copied};
ghost use Rattle.dice_io.specs.Streams.{Reads, Unread, Takes, Unchanged, one_more};
ghost use Rattle.dice_io.specs.Held.{Sure, told};

use crate::edge::{Failed, NoMemory, ReadFail, Sink, Source};
use std::alloc::Global;
use std::marker::Model;

/// Bytes in memory, read from the front. Contracts see the bytes that are left.
#[derive(Drop)]
pub struct SureSource {
    bytes: Vec<u8>,
    at: usize,
}

impl Model for SureSource {
    ghost use Rattle.std.specs.Prelude.{◌≤◌, ℕ, List, length, drop};

    ghost Value = { List ℕ };

    ghost view = { λ s. drop s.at s.bytes.items };

    ghost invariant = { λ s. s.at ≤ length s.bytes.items };
}

impl SureSource {
    /// A source of these bytes. It takes no memory.
    pub fn new(bytes: Vec<u8>) -> SureSource
        ensures { result ≡ bytes.items }
    {
        SureSource { bytes, at: 0 }
    }
}

impl Source for SureSource {
    ghost left = { λ s. Some s };

    ghost faults = { λ s. 0 };

    fn read(&mut self, into: &mut Vec<u8>, most: usize) -> Result<usize, ReadFail>
        requires { 1 ≤ most }
        ensures reads { IfOk result
            (λ n. Reads (Some self.old) (Some self.new) into.old.items into.new.items most n) }
        ensures kept { OnErr result (into.new.items ≡ into.old.items) }
        ensures unread { OnErr result (Unread (Some self.old) (Some self.new)) }
        ensures counted { 0 ≤ 0 }
        ensures steady { OnOk result (◌≡◌ {A = ℕ} 0 0) }
        ensures spared { IsErrOf result ReadFail.NoMemory → ◌≡◌ {A = ℕ} 0 0 }
        ensures failed { IsErrOf result ReadFail.Failed → 0 ≡ one_more 0 }
        ensures most { IfOk result (λ n. n ≡ min most (length self.old)) }
    {
        let n = most.min(self.bytes.len() - self.at);
        into.extend_from_slice(&self.bytes[self.at..self.at + n])?;
        self.at += n;
        Ok(n)
    }
}

/// Keeps what it takes, in room that is made ahead. What goes beyond the room is taken and not
/// kept, and from then on it tells no bytes.
#[derive(Drop)]
pub struct SureSink {
    bytes: Vec<u8>,
    room: usize,
    is_whole: bool,
}

impl Model for SureSink {
    ghost use Rattle.std.specs.Prelude.{◌≤◌, length, vec_capacity};
    ghost use Rattle.dice_io.specs.Held.{Sure};

    ghost Value = { Sure };

    ghost view = { λ s. record { bytes = s.bytes.items; room = s.room; is_whole = s.is_whole } };

    ghost invariant = { λ s. (length s.bytes.items ≤ s.room) × (s.room ≤ vec_capacity s.bytes) };
}

impl SureSink {
    /// A sink with room for that many bytes.
    pub fn new(alloc: Global, room: usize) -> Result<SureSink, NoMemory>
        ensures { IfOk result (λ s. s ≡ record { bytes = []; room = room; is_whole = true }) }
    {
        let bytes = Vec::with_capacity(alloc, room)?;
        Ok(SureSink {
            bytes,
            room,
            is_whole: true,
        })
    }

    /// All that was taken; `None` if bytes went beyond the room.
    pub fn bytes(&self) -> Option<&[u8]>
        ensures { option_copied result ≡ told self.now }
    {
        if self.is_whole {
            Some(self.bytes.as_slice())
        } else {
            None
        }
    }
}

impl Sink for SureSink {
    ghost taken = { told };

    ghost faults = { λ s. 0 };

    fn write(&mut self, bytes: &[u8]) -> Result<usize, Failed>
        ensures takes { IfOk result (λ n. Takes (told self.old) (told self.new) bytes.now n) }
        ensures some { IfOk result (λ n. 0 < length bytes.now → 0 < n) }
        ensures kept { OnErr result (Unchanged (told self.old) (told self.new)) }
        ensures counted { 0 ≤ 0 }
        ensures steady { OnOk result (◌≡◌ {A = ℕ} 0 0) }
        ensures failed { IsErr result → 0 ≡ one_more 0 }
        ensures ok { IsOk result }
        ensures fits { self.old.is_whole ≡ true
            → length self.old.bytes + length bytes.now ≤ self.old.room
            → self.new ≡ record self.old { bytes = self.old.bytes ++ bytes.now } }
        ensures beyond { self.old.room < length self.old.bytes + length bytes.now
            → self.new.is_whole ≡ false }
        ensures stays { self.old.is_whole ≡ false → self.new.is_whole ≡ false }
    {
        self.is_whole = self.is_whole && bytes.len() <= self.room - self.bytes.len();
        if self.is_whole {
            self.bytes.extend_from_slice(bytes).unwrap();
        }
        Ok(bytes.len())
    }
}
