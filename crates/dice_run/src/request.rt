//! How requests are answered.
ghost use Rattle.std.specs.Prelude.{◌≡◌, ◌++◌, ℕ, List, IfOk, OnOk};
ghost use Rattle.action_digest.specs.declared.key.Key.{Key};
ghost use Rattle.action_digest.specs.declared.value.Value.{Value};
ghost use Rattle.dice_run.specs.Answers.{IsToldOf};
ghost use Rattle.action_digest.specs.Buck.{buck};
ghost use Rattle.action_digest.specs.Cycles.{ReachesFirst};
ghost use Rattle.dice_model.specs.Asks.{IsCycle};
ghost use Rattle.dice_run.specs.Seats.{IsCome};
ghost use Rattle.script_trace.specs.Output.{fault_line, digest_line, action_lines, value_lines, labels_text, cycle_line};

use crate::append;
use crate::client::Came;
use action_digest::{ActionText, Fault, Key, Value, labels_of_cycle};
use buck_label::Label;
use dice_key::{NoMemory, Path};
use std::alloc::Global;

/// What most answers fit in: the line of a digest has 65 bytes.
const LINE: usize = 65;

/// Appends the line of a fault.
fn fault_line(out: &mut Vec<u8>, fault: &Fault) -> Result<(), NoMemory>
    ensures { OnOk result (out.new.items ≡ out.old.items ++ fault_line fault.now) }
{
    match fault {
        Fault::NoPackage(package) => {
            append::bytes(out, b"fault no-package //")?;
            append::bytes(out, package.as_bytes())?;
        }
        Fault::BadFile(path, line) => {
            append::bytes(out, b"fault bad-file ")?;
            append::bytes(out, path.as_bytes())?;
            append::bytes(out, b" ")?;
            append::number(out, *line)?;
        }
        Fault::NoTarget(label) => {
            append::bytes(out, b"fault no-target ")?;
            append::bytes(out, label.as_bytes())?;
        }
        Fault::NoSource(path) => {
            append::bytes(out, b"fault no-source ")?;
            append::bytes(out, path.as_bytes())?;
        }
    }
    append::bytes(out, b"\n")
}

/// Appends a digest in hex, or its fault.
fn digest_line(out: &mut Vec<u8>, digest: &Result<[u8; 32], Fault>) -> Result<(), NoMemory>
    ensures { OnOk result (out.new.items ≡ out.old.items ++ digest_line digest.now) }
{
    match digest {
        Ok(digest) => {
            let text = hex::encode(*out.allocator(), digest.as_slice())?;
            append::bytes(out, text.as_bytes())?;
            append::bytes(out, b"\n")
        }
        Err(fault) => fault_line(out, fault),
    }
}

/// Appends the length of an action's text, a line feed and the text, or its fault.
fn action_lines(out: &mut Vec<u8>, action: &Result<ActionText, Fault>) -> Result<(), NoMemory>
    ensures { OnOk result (out.new.items ≡ out.old.items ++ action_lines action.now) }
{
    match action {
        Ok(action) => {
            let text = action.text.as_bytes();
            append::bytes(out, b"action ")?;
            append::number(out, text.len() as u64)?;
            append::bytes(out, b"\n")?;
            append::bytes(out, text)
        }
        Err(fault) => fault_line(out, fault),
    }
}

/// Appends what a value is answered by.
pub(crate) fn value_lines(out: &mut Vec<u8>, value: &Value) -> Result<(), NoMemory>
    ensures { OnOk result (out.new.items ≡ out.old.items ++ value_lines value.now) }
{
    match value {
        Value::Digest(digest) => digest_line(out, digest),
        Value::Action(action) => action_lines(out, action),
        Value::Source(_) | Value::Package(_) | Value::Rule(_) => Ok(()),
    }
}

/// How a request is answered, after its name and version: by what its key has come to.
pub(crate) fn came_lines(alloc: Global, came: &Came) -> Result<Vec<u8>, NoMemory>
    ensures { IfOk result (λ text. (C : List (List (Key × Value))) (v : ℕ) (k : Key)
        → IsCome C v k came.now → IsToldOf C v k text.items) }
{
    match came {
        Came::Value(value) => lines_of_value(alloc, value),
        Came::Cycle(path) => line_of_cycle(alloc, path),
    }
}

/// What a value is answered by.
fn lines_of_value(alloc: Global, value: &Value) -> Result<Vec<u8>, NoMemory>
    ensures { IfOk result (λ text. text.items ≡ value_lines value.now) }
{
    let mut out = Vec::with_capacity(alloc, LINE)?;
    value_lines(&mut out, value)?;
    Ok(out)
}

/// What a cycle is answered by.
fn line_of_cycle(alloc: Global, path: &Path<Key>) -> Result<Vec<u8>, NoMemory>
    ensures { IfOk result (λ text. (C : List (List (Key × Value))) (v : ℕ) (k : Key)
        → IsCycle ⟦<Key as PartialEq>⟧.eq buck C v path.now → ReachesFirst C v k path.now
        → IsToldOf C v k text.items) }
{
    let labels = labels_of_cycle(alloc, path)?;
    let mut out = Vec::with_capacity(alloc, LINE)?;
    cycle_line(&mut out, &labels)?;
    Ok(out)
}

/// Appends labels, each with a space before it.
fn labels(out: &mut Vec<u8>, labels: &[Label]) -> Result<(), NoMemory>
    ensures { OnOk result (out.new.items ≡ out.old.items ++ labels_text labels.now) }
{
    for label in labels {
        append::bytes(out, b" ")?;
        append::bytes(out, label.as_bytes())?;
    }
    Ok(())
}

/// Appends the line of a cycle.
pub(crate) fn cycle_line(out: &mut Vec<u8>, cycle: &[Label]) -> Result<(), NoMemory>
    ensures { OnOk result (out.new.items ≡ out.old.items ++ cycle_line cycle.now) }
{
    append::bytes(out, b"cycle")?;
    labels(out, cycle)?;
    append::bytes(out, b"\n")
}
