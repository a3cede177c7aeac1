//! Lines that are appended to a script.
ghost use Rattle.std.specs.Prelude.{◌≡◌, ◌++◌, OnOk, decimal};
ghost use Rattle.script.specs.declared.line.Line.TheVariants.{Put, Commit, Open};
ghost use Rattle.bulk_script.specs.Spelled.{spelled};
ghost use Rattle.bulk_script.specs.Bulk.{label_of, ask_in};

use crate::rules::PACKAGE;
use dice_key::NoMemory;
use itoa::Buffer;

/// Appends bytes.
pub(crate) fn bytes(out: &mut Vec<u8>, bytes: &[u8]) -> Result<(), NoMemory>
    ensures { OnOk result (out.new.items ≡ out.old.items ++ bytes.now) }
{
    out.extend_from_slice(bytes)?;
    Ok(())
}

/// Appends a number in decimal.
pub(crate) fn number(out: &mut Vec<u8>, n: u64) -> Result<(), NoMemory>
    ensures { OnOk result (out.new.items ≡ out.old.items ++ decimal n) }
{
    let mut buffer = Buffer::new();
    out.extend_from_slice(buffer.format(n).as_bytes())?;
    Ok(())
}

/// Appends the label of a target.
pub(crate) fn label(out: &mut Vec<u8>, target: u64) -> Result<(), NoMemory>
    ensures { OnOk result (out.new.items ≡ out.old.items ++ label_of target) }
{
    bytes(out, b"//p")?;
    number(out, target / PACKAGE as u64)?;
    bytes(out, b":t")?;
    number(out, target)
}

/// Appends a `put` line with the bytes after it.
pub(crate) fn put(out: &mut Vec<u8>, path: &[u8], file: &[u8]) -> Result<(), NoMemory>
    ensures { OnOk result (out.new.items ≡ out.old.items ++ spelled (Put path.now file.now)) }
{
    bytes(out, b"put ")?;
    bytes(out, path)?;
    bytes(out, b" ")?;
    number(out, file.len() as u64)?;
    bytes(out, b"\n")?;
    bytes(out, file)?;
    bytes(out, b"\n")
}

/// Appends a `commit` line, and one that opens a transaction.
pub(crate) fn commit_and_open(out: &mut Vec<u8>, transaction: &[u8]) -> Result<(), NoMemory>
    ensures { OnOk result
        (out.new.items ≡ out.old.items ++ spelled Commit ++ spelled (Open transaction.now)) }
{
    bytes(out, b"commit\nopen ")?;
    bytes(out, transaction)?;
    bytes(out, b"\n")
}

/// Appends a line that asks for a target in a transaction.
pub(crate) fn ask(out: &mut Vec<u8>, transaction: &[u8], target: u64) -> Result<(), NoMemory>
    ensures { OnOk result
        (out.new.items ≡ out.old.items ++ spelled (ask_in transaction.now target)) }
{
    bytes(out, b"ask ")?;
    bytes(out, transaction)?;
    bytes(out, b" ")?;
    bytes(out, transaction)?;
    number(out, target)?;
    bytes(out, b" ")?;
    label(out, target)?;
    bytes(out, b"\n")?;
    Ok(())
}
