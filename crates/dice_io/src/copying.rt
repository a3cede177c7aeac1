//! Reads a whole input, and writes a whole output.
ghost use Rattle.std.specs.Prelude.{◌≡◌, ◌≤◌, length, IfOk, OnOk, OnErr, IsErrOf, IsErr};
ghost use Rattle.dice_io.specs.Streams.{ReadTo, ReadPart, Gained, GainedPart, Rose};

use crate::edge::{Failed, ReadFail, Sink, Source};
use std::alloc::Global;

/// The most bytes that one call asks a source for.
const PIECE: usize = 65_536;

/// Reads to the end of the input, or `limit` bytes if it is longer.
///
/// Each call asks for the smaller of 65,536 bytes and what is left to the limit. At an error the
/// bytes that were read are lost. If the source tells its bytes, they are a beginning of what was
/// left, at most `limit` of them. The source counts a fault only if `Failed` is answered.
pub fn read_all<S: Source>(alloc: Global, source: &mut S, limit: usize) -> Result<Vec<u8>, ReadFail>
    ensures read { IfOk result
        (λ bytes. ReadTo (S.left source.old) (S.left source.new) bytes.items limit) }
    ensures few { IfOk result (λ bytes. length bytes.items ≤ limit) }
    ensures part { OnErr result (ReadPart (S.left source.old) (S.left source.new) limit) }
    ensures counted { S.faults source.old ≤ S.faults source.new }
    ensures steady { OnOk result (S.faults source.new ≡ S.faults source.old) }
    ensures spared { IsErrOf result ReadFail.NoMemory → S.faults source.new ≡ S.faults source.old }
    ensures failed { IsErrOf result ReadFail.Failed
        → Rose (S.faults source.old) (S.faults source.new) }
{
    let mut bytes = Vec::new(alloc);
    while bytes.len() < limit {
        let most = PIECE.min(limit - bytes.len());
        if source.read(&mut bytes, most)? == 0 {
            break;
        }
    }
    Ok(bytes)
}

/// Writes all of the bytes; it takes no memory.
///
/// Each call hands the sink the whole rest. At an error the sink has gained a beginning of the
/// bytes. It counts a fault only at an error.
pub fn write_all<K: Sink>(sink: &mut K, bytes: &[u8]) -> Result<(), Failed>
    ensures whole { OnOk result (Gained (K.taken sink.old) (K.taken sink.new) bytes.now) }
    ensures part { OnErr result (GainedPart (K.taken sink.old) (K.taken sink.new) bytes.now) }
    ensures counted { K.faults sink.old ≤ K.faults sink.new }
    ensures steady { OnOk result (K.faults sink.new ≡ K.faults sink.old) }
    ensures failed { IsErr result → Rose (K.faults sink.old) (K.faults sink.new) }
{
    let mut rest = bytes;
    while !rest.is_empty() {
        let n = sink.write(rest)?;
        rest = &rest[n..];
    }
    Ok(())
}
