//! Texts of one owner.
ghost use Rattle.std.specs.Prelude.{◌≡◌, nat_eq};
ghost use Rattle.std.specs.Cmp.Lexicographic.{pointwise, nat_list_eq_equiv};
ghost use Rattle.std.specs.Cmp.{partial_equiv_from_equiv};

use std::marker::Model;

/// The bytes of one owner, which do not change. A contract sees them as a list.
///
/// As with a `Text`, those that are equal are the same, so they may stand in a value of a universe.
/// They are neither shared nor hashed. So they cost one allocation where a `Text` costs two, and to
/// make them costs nothing more than their bytes.
#[derive(Drop)]
pub struct OwnedText {
    bytes: Vec<u8>,
}

impl Model for OwnedText {
    ghost use Rattle.std.specs.Prelude.{List, ℕ};

    ghost Value = { List ℕ };

    ghost view = { λ t. t.bytes.items };
}

impl OwnedText {
    /// The text of these bytes, which are moved.
    pub fn new(bytes: Vec<u8>) -> OwnedText
        ensures { result ≡ bytes.items }
    {
        OwnedText { bytes }
    }

    /// Its bytes.
    pub fn as_bytes(&self) -> &[u8]
        ensures { result.now ≡ self.now }
    {
        self.bytes.as_slice()
    }
}

impl PartialEq for OwnedText {
    ghost eq = { pointwise nat_eq };

    ghost laws = { partial_equiv_from_equiv nat_list_eq_equiv };

    fn eq(&self, other: &OwnedText) -> bool {
        self.as_bytes() == other.as_bytes()
    }
}

impl Eq for OwnedText {
    ghost laws = { nat_list_eq_equiv };
}
