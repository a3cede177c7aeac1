//! The keys.
ghost use Rattle.std.specs.Prelude.{◌≡◌, IfOk};
ghost use Rattle.action_digest.specs.Buck.{base_of, key_text, key_word};

use buck_label::{Label, Package, Path};
use dice_key::{Line, NoMemory};
use std::alloc::Global;

/// What can be asked for.
#[derive(PartialEq, Eq, PartialOrd, Ord, Hash, Drop)]
pub enum Key {
    /// The bytes of a file, set from outside.
    Source(Path),
    /// The targets of a package, read from its target file.
    Package(Package),
    /// One target of its package.
    Rule(Label),
    /// The text of a target's action.
    Action(Label),
    /// The digest of a target's action text.
    Digest(Label),
}

impl Key {
    /// The one key that this one is computed from: of a package its target file, of a rule its
    /// package, of an action its rule, of a digest its action; a source is computed from nothing,
    /// and this is the source itself.
    pub(crate) fn base(&self, alloc: Global) -> Result<Key, NoMemory>
        ensures { IfOk result (λ k. k ≡ base_of self.now) }
    {
        match self {
            Key::Source(path) => Ok(Key::Source(path.try_clone()?)),
            Key::Package(package) => Ok(Key::Source(package.target_file(alloc)?)),
            Key::Rule(label) => Ok(Key::Package(label.package(alloc)?)),
            Key::Action(label) => Ok(Key::Rule(label.try_clone()?)),
            Key::Digest(label) => Ok(Key::Action(label.try_clone()?)),
        }
    }

    /// The key's text, as `digest //a:w`; if short the path, package or label alone.
    pub(crate) fn print(&self, alloc: Global, short: bool) -> Result<Line, NoMemory>
        ensures { IfOk result (λ t. t ≡ key_text self.now short) }
    {
        let mut text = Vec::new(alloc);
        if !short {
            text.extend_from_slice(self.word())?;
        }
        match self {
            Key::Source(path) => text.extend_from_slice(path.as_bytes())?,
            Key::Package(package) => {
                text.extend_from_slice(b"//")?;
                text.extend_from_slice(package.as_bytes())?;
            }
            Key::Rule(label) | Key::Action(label) | Key::Digest(label) => {
                text.extend_from_slice(label.as_bytes())?;
            }
        }
        Ok(Line::from_bytes(text))
    }

    /// The word of the key's kind and a space.
    fn word(&self) -> &'static [u8]
        ensures { result.now ≡ key_word self.now }
    {
        match self {
            Key::Source(_) => b"source ",
            Key::Package(_) => b"package ",
            Key::Rule(_) => b"rule ",
            Key::Action(_) => b"action ",
            Key::Digest(_) => b"digest ",
        }
    }
}
