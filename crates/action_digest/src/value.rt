//! The values.

use crate::contents::Contents;
use crate::fault::Fault;
use crate::package_file::PackageFile;
use crate::rule::Rule;
use shared_text::OwnedText;
use std::hash::{Hash, Hasher};

/// The text of an action.
#[derive(PartialEq, Eq, Drop)]
pub struct ActionText {
    /// Its lines, each ended by a line feed.
    pub text: OwnedText,
    /// Whether the text holds the version: it is then not used again at later versions.
    pub holds_version: bool,
}

/// The value of a key, of the key's kind.
#[derive(PartialEq, Eq, Drop)]
pub enum Value {
    /// The bytes of a file, or that there is none.
    Source(Option<Contents>),
    /// The targets of a package.
    Package(Result<PackageFile, Fault>),
    /// One target.
    Rule(Result<Rule, Fault>),
    /// The text of an action.
    Action(Result<ActionText, Fault>),
    /// The SHA-256 of an action's text.
    Digest(Result<[u8; 32], Fault>),
}

/// Only the value of a source is ever set, and so only such values are hashed apart: by the hash
/// that their text keeps.
impl Hash for Value {
    ghost use Rattle.std.proofs.Common.{ap};
    ghost use Rattle.action_digest.specs.Same.{values_equal};
    ghost use Rattle.action_digest.specs.Hashed.{hashed};

    ghost hash_input = { hashed };

    ghost respects_eq = { λ x y e. ap hashed (values_equal x y e) };

    fn hash<H: Hasher>(&self, state: &mut H) {
        if let Value::Source(contents) = self {
            contents.hash(state);
        }
    }
}
