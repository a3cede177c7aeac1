//! Texts that are kept once, with their hash beside them.
ghost use Rattle.std.specs.Prelude.{◌≡◌, IfOk, Some, nat_eq, refl};
ghost use Rattle.std.specs.Ordering.{nat_cmp};
ghost use Rattle.std.specs.Hash as fed;
ghost use Rattle.std.specs.Cmp.Lexicographic.{pointwise, slice_cmp, nat_list_eq_equiv, nat_list_cmp_total, texts_po, texts_ties};
ghost use Rattle.std.specs.Cmp.{partial_equiv_from_equiv};
ghost use Rattle.shared_text.specs.Texts.{hash_of, hash_of_equal};

use crate::bytes::Bytes;
use std::alloc::{AllocError, Global};
use std::cmp::Ordering;
use std::hash::{DefaultHasher, Hash, Hasher};
use std::marker::Model;
use std::sync::Arc;

/// Bytes that are kept once, with their hash beside them. A contract sees them as a list.
///
/// Texts that are equal are the same, so a text may stand in a key or a value of a universe. A
/// `String` or a `Vec` may not: a contract sees its capacity too, and two equal ones may differ in
/// that.
///
/// A clone copies no byte, equality of unlike texts mostly looks at the hashes alone, and hashing
/// takes constant time. The order is that of the bytes.
///
/// The hash is SipHash-1-3, whose state has 256 bits. For a hasher of 64 bits blocks can be written
/// that lead it to one state, and with them thousands of texts with one hash.
#[derive(Drop)]
pub struct Text {
    shared: Arc<Hashed>,
}

#[derive(Drop)]
struct Hashed {
    hash: u64,
    bytes: Bytes,
}

impl Model for Text {
    ghost use Rattle.std.specs.Prelude.{◌≡◌, List, ℕ};
    ghost use Rattle.std.specs.Arc.{arc_value};
    ghost use Rattle.shared_text.specs.Texts.{hash_of};

    ghost Value = { List ℕ };

    ghost view = { λ t. (arc_value t.shared).bytes };

    ghost invariant = { λ t. (arc_value t.shared).hash ≡ hash_of (arc_value t.shared).bytes };
}

fn hash_of(bytes: &[u8]) -> u64
    ensures { result ≡ hash_of bytes.now }
{
    let mut hasher = DefaultHasher::new();
    hasher.write(bytes);
    hasher.finish()
}

impl Text {
    /// The text of these bytes, which are hashed once. They are moved, and copied only if they are
    /// few.
    pub fn new(alloc: Global, bytes: Vec<u8>) -> Result<Text, AllocError>
        ensures { IfOk result (λ t. t ≡ bytes.items) }
    {
        Text::of(alloc, Bytes::new(bytes))
    }

    /// The text of a copy of these bytes. Up to 16 of them take one allocation, and more take two.
    pub fn from_slice(alloc: Global, bytes: &[u8]) -> Result<Text, AllocError>
        ensures { IfOk result (λ t. t ≡ bytes.now) }
    {
        Text::of(alloc, Bytes::from_slice(alloc, bytes)?)
    }

    fn of(alloc: Global, bytes: Bytes) -> Result<Text, AllocError>
        ensures { IfOk result (λ t. t ≡ bytes) }
    {
        let hash = hash_of(bytes.as_slice());
        let shared = Arc::new(alloc, Hashed { hash, bytes })?;
        Ok(Text { shared })
    }

    /// Its bytes.
    pub fn as_bytes(&self) -> &[u8]
        ensures { result.now ≡ self.now }
    {
        self.shared.bytes.as_slice()
    }

    /// The same text again; no byte is copied.
    pub fn try_clone(&self) -> Result<Text, AllocError>
        ensures { IfOk result (λ t. t ≡ self.now) }
    {
        let shared = Arc::try_clone(&self.shared)?;
        Ok(Text { shared })
    }
}

impl PartialEq for Text {
    ghost eq = { pointwise nat_eq };

    ghost laws = { partial_equiv_from_equiv nat_list_eq_equiv };

    fn eq(&self, other: &Text) -> bool {
        self.shared.hash == other.shared.hash && self.shared.bytes.is_same(&other.shared.bytes)
    }
}

impl Eq for Text {
    ghost laws = { nat_list_eq_equiv };
}

impl PartialOrd for Text {
    ghost partial_cmp = { λ x y. Some (slice_cmp nat_cmp x y) };

    ghost laws = { texts_po };

    fn partial_cmp(&self, other: &Text) -> Option<Ordering> {
        Some(self.cmp(other))
    }
}

impl Ord for Text {
    ghost cmp = { slice_cmp nat_cmp };

    ghost total = { nat_list_cmp_total };

    ghost matches_partial_cmp = { λ x y. refl };

    ghost matches_eq = { texts_ties };

    fn cmp(&self, other: &Text) -> Ordering {
        self.as_bytes().cmp(other.as_bytes())
    }
}

impl Hash for Text {
    ghost hash_input = { λ t. fed.u64 (hash_of t) };

    ghost respects_eq = { hash_of_equal };

    fn hash<H: Hasher>(&self, state: &mut H) {
        self.shared.hash.hash(state);
    }
}
