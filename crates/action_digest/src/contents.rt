//! What a file holds.
ghost use Rattle.std.specs.Prelude.{◌≡◌, nat_eq, IfOk};
ghost use Rattle.std.specs.Hash as fed;
ghost use Rattle.std.specs.Cmp.Lexicographic.{pointwise, nat_list_eq_equiv};
ghost use Rattle.std.specs.Cmp.{partial_equiv_from_equiv};
ghost use Rattle.sha2.specs.Sha256.{sha256};
ghost use Rattle.shared_text.specs.Texts.{hash_of, hash_of_equal};

use crate::action::digest_of;
use buck_label::Text;
use dice_key::NoMemory;
use once_cell::race::OnceBox;
use std::alloc::Global;
use std::hash::{Hash, Hasher};
use std::marker::Model;

/// The bytes of a file, with their SHA-256 beside them once it was wanted. Contracts see the bytes.
///
/// So a file is hashed once, and not by each action that takes it in; and one that no action takes
/// in is not hashed.
#[derive(Drop)]
pub struct Contents {
    text: Text,
    digested: OnceBox<Digested>,
}

/// A text and its digest.
struct Digested {
    text: Text,
    digest: [u8; 32],
    ghost is_digest: { digest ≡ sha256 text },
}

impl Drop for Digested {
    fn drop(self) {
        let Digested {
            text: _text,
            digest: _,
        } = self;
    }
}

impl Model for Contents {
    ghost use Rattle.std.specs.Prelude.{List, ℕ};

    ghost Value = { List ℕ };

    ghost view = { λ c. c.text };
}

impl Contents {
    /// What holds these bytes. It takes no memory, and hashes nothing.
    pub fn new(alloc: Global, text: Text) -> Contents
        ensures { result ≡ text }
    {
        Contents {
            text,
            digested: OnceBox::new(alloc),
        }
    }

    /// The bytes, as a text.
    pub fn as_text(&self) -> &Text
        ensures { result.now ≡ self.now }
    {
        &self.text
    }

    /// The SHA-256 of the bytes. It is found by the first call, and kept.
    pub fn digest(&self, alloc: Global) -> Result<[u8; 32], NoMemory>
        ensures { IfOk result (λ d. d ≡ sha256 self.now) }
    {
        if let Some(known) = self.digested.get() {
            if known.text == self.text {
                return Ok(known.digest);
            }
        }
        let digest = digest_of(self.text.as_bytes());
        let text = self.text.try_clone()?;
        let _kept = self
            .digested
            .set(Box::new(alloc, Digested { text, digest })?);
        Ok(digest)
    }
}

impl PartialEq for Contents {
    ghost eq = { pointwise nat_eq };

    ghost laws = { partial_equiv_from_equiv nat_list_eq_equiv };

    fn eq(&self, other: &Contents) -> bool {
        self.text == other.text
    }
}

impl Eq for Contents {
    ghost laws = { nat_list_eq_equiv };
}

impl Hash for Contents {
    ghost hash_input = { λ t. fed.u64 (hash_of t) };

    ghost respects_eq = { hash_of_equal };

    fn hash<H: Hasher>(&self, state: &mut H) {
        self.text.hash(state);
    }
}
