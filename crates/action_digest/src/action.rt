//! The texts of actions, and their digests.
ghost use Rattle.std.specs.Prelude.{◌≡◌, ◌++◌, map, decimal, Some, IfOk, OnOk};
ghost use Rattle.std.specs.Arc.{arc_value};
ghost use Rattle.action_digest.specs.Actions.{hex_digest, line, digest_line, file_line, source_in, target_line, digest_in, line_by, lines_by, head_of, is_stamp, names_sources, action_of, behind, text_or, IsAppended};
ghost use Rattle.hex.specs.Hex.{encode_lower};
ghost use Rattle.sha2.specs.Sha256.{sha256};

use crate::fault::Fault;
use crate::key::Key;
use crate::value::{ActionText, Value};
use buck_label::{Label, Path};
use dice_key::{NoMemory, Version};
use itoa::Buffer;
use sha2::{Digest, Sha256};
use shared_text::OwnedText;
use std::alloc::Global;
use std::sync::Arc;
use target_file::Action;

/// How many bytes the line of a digest in hex has.
const HEX_LINE: usize = 65;

/// How many bytes the line of a number has at most.
const NUMBER_LINE: usize = 21;

/// The SHA-256 of some bytes (FIPS 180-4).
pub(crate) fn digest_of(bytes: &[u8]) -> [u8; 32]
    ensures { result ≡ sha256 bytes.now }
{
    Sha256::digest(bytes)
}

/// The text of an action at this version, if it asked these keys and got these answers; or the
/// first fault.
pub(crate) fn action_of(
    alloc: Global,
    version: Version,
    action: &Action,
    keys: &[Arc<Key>],
    values: &[Arc<Value>],
) -> Result<Result<ActionText, Fault>, NoMemory>
    ensures { IfOk result (λ r. r
        ≡ action_of version action.now (map arc_value keys.now) (map arc_value values.now)) }
{
    let named = names_sources(action);
    let mut text = Vec::with_capacity(alloc, room_of(action, named, keys))?;
    push_head(&mut text, version, action)?;
    match push_answers(&mut text, named, keys, values)? {
        Ok(()) => Ok(Ok(ActionText {
            text: OwnedText::new(text),
            holds_version: is_stamp(action),
        })),
        Err(fault) => Ok(Err(fault)),
    }
}

/// How many bytes the text of an action takes at most.
fn room_of(action: &Action, named: bool, keys: &[Arc<Key>]) -> usize {
    let mut room = head_room(action);
    for key in keys {
        room = room.saturating_add(line_room(named, key));
    }
    room
}

/// How many bytes the line of a key takes.
fn line_room(named: bool, key: &Key) -> usize {
    let name = match key {
        Key::Source(path) => path.as_bytes(),
        Key::Digest(label) => label.as_bytes(),
        _ => return 0,
    };
    if named {
        name.len().saturating_add(1 + HEX_LINE)
    } else {
        HEX_LINE
    }
}

/// How many bytes the lines before those of what was asked take at most.
fn head_room(action: &Action) -> usize {
    match action {
        Action::ExportFile { out, .. } => rule_room(b"export_file", out, 0),
        Action::Filegroup { .. } => b"filegroup".len() + 1,
        Action::WriteFile { out, .. } => rule_room(b"write_file", out, HEX_LINE),
        Action::Genrule { out, .. } => rule_room(b"genrule", out, HEX_LINE),
        Action::StampFile { out } => rule_room(b"stamp_file", out, NUMBER_LINE),
    }
}

/// How many bytes the lines of a rule and its out take, with those of another line.
fn rule_room(rule: &[u8], out: &Path, line: usize) -> usize {
    let lines = rule.len().saturating_add(2).saturating_add(line);
    out.as_bytes().len().saturating_add(lines)
}

/// Whether the text of an action holds the version.
fn is_stamp(action: &Action) -> bool
    ensures { result ≡ is_stamp action.now }
{
    matches!(action, Action::StampFile { .. })
}

/// Whether the line of a source begins with its path or label.
fn names_sources(action: &Action) -> bool
    ensures { result ≡ names_sources action.now }
{
    !matches!(action, Action::ExportFile { .. })
}

/// Appends the lines before those of what was asked.
fn push_head(text: &mut Vec<u8>, version: Version, action: &Action) -> Result<(), NoMemory>
    ensures { OnOk result (text.new.items ≡ text.old.items ++ head_of version action.now) }
{
    match action {
        Action::ExportFile { out, .. } => push_rule(text, b"export_file", out.as_bytes()),
        Action::Filegroup { .. } => push_line(text, b"filegroup"),
        Action::WriteFile { content, out } => {
            push_rule(text, b"write_file", out.as_bytes())?;
            push_digest(text, content.as_bytes())
        }
        Action::Genrule { out, cmd, .. } => {
            push_rule(text, b"genrule", out.as_bytes())?;
            push_digest(text, cmd.text())
        }
        Action::StampFile { out } => {
            push_rule(text, b"stamp_file", out.as_bytes())?;
            push_number(text, version)
        }
    }
}

/// Appends the lines of a rule and of its out.
fn push_rule(text: &mut Vec<u8>, rule: &[u8], out: &[u8]) -> Result<(), NoMemory>
    ensures { OnOk result (text.new.items ≡ text.old.items ++ line rule.now ++ line out.now) }
{
    push_line(text, rule)?;
    push_line(text, out)
}

/// Appends the line of a number in decimal.
fn push_number(text: &mut Vec<u8>, number: u64) -> Result<(), NoMemory>
    ensures { OnOk result (text.new.items ≡ text.old.items ++ line (decimal number)) }
{
    let mut buffer = Buffer::new();
    push_line(text, buffer.format(number).as_bytes())
}

/// Appends a line and its line feed.
fn push_line(text: &mut Vec<u8>, bytes: &[u8]) -> Result<(), NoMemory>
    ensures { OnOk result (text.new.items ≡ text.old.items ++ line bytes.now) }
{
    text.extend_from_slice(bytes)?;
    text.push(b'\n')?;
    Ok(())
}

/// Appends the line of a digest in hex.
fn push_hex(text: &mut Vec<u8>, digest: &[u8; 32]) -> Result<(), NoMemory>
    ensures { OnOk result (text.new.items ≡ text.old.items ++ line (encode_lower digest.now)) }
{
    let mut hex = [0; 64];
    match hex::encode_to_slice(digest.as_slice(), &mut hex) {
        Ok(()) => push_line(text, hex.as_slice()),
        Err(_) => unreachable!(),
    }
}

/// Appends the line of the digest of some bytes.
fn push_digest(text: &mut Vec<u8>, bytes: &[u8]) -> Result<(), NoMemory>
    ensures { OnOk result (text.new.items ≡ text.old.items ++ line (hex_digest bytes.now)) }
{
    push_hex(text, &digest_of(bytes))
}

/// Appends the line of something asked: its path or label if it is named, and a digest in hex.
fn push_named(
    text: &mut Vec<u8>,
    named: bool,
    name: &[u8],
    digest: &[u8; 32],
) -> Result<(), NoMemory>
    ensures { OnOk result
        (text.new.items ≡ text.old.items ++ digest_line named name.now (encode_lower digest.now)) }
{
    if named {
        text.extend_from_slice(name)?;
        text.push(b' ')?;
    }
    push_hex(text, digest)
}

/// Appends the line of a source by its answer, or gives the fault that it has no file.
fn push_source(
    text: &mut Vec<u8>,
    named: bool,
    path: &Path,
    value: &Value,
) -> Result<Result<(), Fault>, NoMemory>
    ensures { IfOk result (λ r. IsAppended text.old.items text.new.items r
        (file_line named path.now (source_in (Some value.now)))) }
{
    let Value::Source(Some(contents)) = value else {
        return Ok(Err(Fault::NoSource(path.try_clone()?)));
    };
    let digest = contents.digest(*text.allocator())?;
    push_named(text, named, path.as_bytes(), &digest)?;
    Ok(Ok(()))
}

/// Appends the line of a target by its answer, or gives the fault that the answer is.
fn push_target(
    text: &mut Vec<u8>,
    named: bool,
    label: &Label,
    value: &Value,
) -> Result<Result<(), Fault>, NoMemory>
    ensures { IfOk result (λ r. IsAppended text.old.items text.new.items r
        (target_line named label.now (digest_in (Some value.now)))) }
{
    match value {
        Value::Digest(Ok(digest)) => {
            push_named(text, named, label.as_bytes(), digest)?;
            Ok(Ok(()))
        }
        Value::Digest(Err(fault)) => Ok(Err(fault.try_clone()?)),
        _ => Ok(Err(Fault::nothing(*text.allocator())?)),
    }
}

/// Appends the line of a key by its answer, or gives the fault that the answer is.
fn push_answer(
    text: &mut Vec<u8>,
    named: bool,
    key: &Key,
    value: &Value,
) -> Result<Result<(), Fault>, NoMemory>
    ensures { IfOk result
        (λ r. IsAppended text.old.items text.new.items r (line_by named key.now value.now)) }
{
    match key {
        Key::Source(path) => push_source(text, named, path, value),
        Key::Digest(label) => push_target(text, named, label, value),
        _ => Ok(Ok(())),
    }
}

/// Appends the lines of these keys by their answers, in order, or gives the first fault.
fn push_answers(
    text: &mut Vec<u8>,
    named: bool,
    keys: &[Arc<Key>],
    values: &[Arc<Value>],
) -> Result<Result<(), Fault>, NoMemory>
    ensures { IfOk result (λ r. text_or text.new.items r
        ≡ behind text.old.items
        (lines_by named (map arc_value keys.now) (map arc_value values.now))) }
{
    for (key, value) in keys.iter().zip(values) {
        if let Err(fault) = push_answer(text, named, key, value)? {
            return Ok(Err(fault));
        }
    }
    Ok(Ok(()))
}
