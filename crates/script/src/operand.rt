//! The operands of a line.
ghost use Rattle.std.specs.Prelude.{◌≡◌, ◌↔◌, ◌≤◌, ◌<◌, ◌+◌, true, length, drop};
ghost use Rattle.script.specs.Faults.{IsFollowed};
ghost use Rattle.script.specs.Scripts.{IsSkipped};
ghost use Rattle.script.specs.Taking.{IsPathRead, IsNameRead, IsLabelRead};

use crate::fault::{Stop, Word};
use crate::name::{Name, is_name};
use buck_label::{Label, Path, Refused};
use std::alloc::Global;

/// The place after the byte that stands here; if none does, this place.
pub(crate) fn past_byte(text: &[u8], at: usize) -> usize
    requires { at ≤ length text.now }
    ensures left { drop result text.now ≡ drop (at + 1) text.now }
    ensures fits { result ≤ length text.now }
    ensures more { (at ≤ result) × (0 < length text.now → 0 < result) }
{
    if at < text.len() { at + 1 } else { at }
}

/// Whether so many bytes are left, and then an LF or the end.
pub(crate) fn is_enough(count: usize, rest: &[u8]) -> bool
    ensures { (result ≡ true) ↔ ((count ≤ length rest.now) × IsFollowed (drop count rest.now)) }
{
    count <= rest.len() && is_followed(&rest[count..])
}

fn is_followed(rest: &[u8]) -> bool
    ensures { (result ≡ true) ↔ IsFollowed rest.now }
{
    match rest {
        [] => true,
        [byte, _rest @ ..] => *byte == b'\n',
    }
}

pub(crate) fn is_skipped(line: &[u8]) -> bool
    ensures { (result ≡ true) ↔ IsSkipped line.now }
{
    match line {
        [] => true,
        [byte, _rest @ ..] => *byte == b'#',
    }
}

pub(crate) fn read_path(alloc: Global, path: &[u8]) -> Result<Path, Stop>
    ensures { IsPathRead path.now result }
{
    match Path::read(alloc, path) {
        Ok(path) => Ok(path),
        Err(Refused::Bad) => Err(Stop::Fault(Word::Path)),
        Err(Refused::NoMemory) => Err(Stop::NoMemory),
    }
}

pub(crate) fn read_label(alloc: Global, label: &[u8]) -> Result<Label, Stop>
    ensures { IsLabelRead label.now result }
{
    match Label::read(alloc, label) {
        Ok(label) => Ok(label),
        Err(Refused::Bad) => Err(Stop::Fault(Word::Label)),
        Err(Refused::NoMemory) => Err(Stop::NoMemory),
    }
}

pub(crate) fn read_name(alloc: Global, name: &[u8]) -> Result<Name, Stop>
    ensures { IsNameRead name.now result }
{
    if !is_name(name) {
        return Err(Stop::Fault(Word::Name));
    }
    Ok(Name::of(alloc, name)?)
}
