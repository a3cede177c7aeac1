//! The texts of the target files.
ghost use Rattle.std.specs.Prelude.{◌≡◌, ◌++◌, OnOk, IfOk, flat_map};
ghost use Rattle.bulk_script.specs.Bulk.{export_line, group_line, target_line, targets_in, numbers_below};

use crate::append::{bytes, label, number};
use dice_key::NoMemory;
use std::alloc::Global;

/// How many sources there are.
pub(crate) const SOURCES: u64 = 16;

/// How many targets a package has; the last may have fewer.
pub(crate) const PACKAGE: u32 = 100;

fn export_line(out: &mut Vec<u8>, source: u64) -> Result<(), NoMemory>
    ensures { OnOk result (out.new.items ≡ out.old.items ++ export_line source) }
{
    bytes(out, b"export_file(name = \"s")?;
    number(out, source)?;
    bytes(out, b"\")\n")
}

/// The target file of the sources.
pub(crate) fn source_rules(alloc: Global) -> Result<Vec<u8>, NoMemory>
    ensures { IfOk result (λ text. text.items ≡ flat_map export_line (numbers_below 16)) }
{
    let mut text = Vec::new(alloc);
    for source in 0..SOURCES {
        export_line(&mut text, source)?;
    }
    Ok(text)
}

fn group_line(out: &mut Vec<u8>, target: u64) -> Result<(), NoMemory>
    ensures { OnOk result (out.new.items ≡ out.old.items ++ group_line target) }
{
    bytes(out, b"filegroup(name = \"t")?;
    number(out, target)?;
    bytes(out, b"\", srcs = [\"//src:s")?;
    number(out, target % SOURCES)?;
    bytes(out, b"\", \"")?;
    label(out, target / 2)?;
    bytes(out, b"\", \"")?;
    label(out, target / 3)?;
    bytes(out, b"\"])\n")?;
    Ok(())
}

fn target_line(out: &mut Vec<u8>, target: u64) -> Result<(), NoMemory>
    ensures { OnOk result (out.new.items ≡ out.old.items ++ target_line target) }
{
    if target == 0 {
        bytes(out, b"write_file(name = \"t0\", content = \"0\")\n")
    } else {
        group_line(out, target)
    }
}

/// The target file of a package, if there are so many targets in all.
pub(crate) fn package_rules(alloc: Global, targets: u32, index: u32) -> Result<Vec<u8>, NoMemory>
    ensures { IfOk result (λ text. text.items ≡ flat_map target_line (targets_in targets index)) }
{
    let first = index as u64 * PACKAGE as u64;
    let end = (first + PACKAGE as u64).min(targets as u64);
    let mut text = Vec::new(alloc);
    for target in first..end {
        target_line(&mut text, target)?;
    }
    Ok(text)
}
