//! Texts that are appended to the output.
ghost use Rattle.std.specs.Prelude.{◌≡◌, ◌++◌, OnOk, decimal, flat_map};
ghost use Rattle.script_trace.specs.Output.{line};
ghost use Rattle.script_trace.specs.Tracing.{trace_text};

use dice_key::{Line, NoMemory};
use itoa::Buffer;

/// Appends bytes.
pub(crate) fn bytes(out: &mut Vec<u8>, bytes: &[u8]) -> Result<(), NoMemory>
    ensures { OnOk result (out.new.items ≡ out.old.items ++ bytes.now) }
{
    out.extend_from_slice(bytes)?;
    Ok(())
}

/// Appends a number in decimal.
pub(crate) fn number(out: &mut Vec<u8>, n: u64) -> Result<(), NoMemory>
    ensures { OnOk result (out.new.items ≡ out.old.items ++ decimal n) }
{
    let mut buffer = Buffer::new();
    out.extend_from_slice(buffer.format(n).as_bytes())?;
    Ok(())
}

/// Appends lines, each with its line feed.
pub(crate) fn lines(out: &mut Vec<u8>, lines: &[Line]) -> Result<(), NoMemory>
    ensures { OnOk result (out.new.items ≡ out.old.items ++ flat_map line lines.now) }
{
    for line in lines {
        bytes(out, line.as_bytes())?;
        bytes(out, b"\n")?;
    }
    Ok(())
}

/// Appends the trace that these lines of events are: how many there are, and each.
pub(crate) fn trace(out: &mut Vec<u8>, events: &[Line]) -> Result<(), NoMemory>
    ensures { OnOk result (out.new.items ≡ out.old.items ++ trace_text events.now) }
{
    bytes(out, b"trace ")?;
    number(out, events.len() as u64)?;
    bytes(out, b"\n")?;
    lines(out, events)
}
