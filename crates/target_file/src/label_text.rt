//! Labels as they are written.
ghost use Rattle.std.specs.Prelude.{◌≡◌, nat_eq};
ghost use Rattle.std.specs.Cmp.Lexicographic.{pointwise, nat_list_eq_equiv};
ghost use Rattle.std.specs.Cmp.{partial_equiv_from_equiv};
ghost use Rattle.buck_label.specs.Labels.{IsSomeLabel};

use buck_label::Text;
use std::hash::{Hash, Hasher};
use std::marker::Model;

/// A label as it stands in a target file: absolute, or `:NAME` of the file's own package. Which
/// label that is says `buck_label::Label::read_in` with the package, which never refuses it. A
/// contract sees the bytes.
#[derive(Drop)]
pub struct LabelText {
    text: Text,
}

impl Model for LabelText {
    ghost use Rattle.std.specs.Prelude.{List, ℕ};
    ghost use Rattle.buck_label.specs.Labels.{IsSomeLabel};

    ghost Value = { List ℕ };

    ghost view = { λ l. l.text };

    ghost invariant = { λ l. IsSomeLabel l.text };
}

impl LabelText {
    /// The label of this text.
    pub(crate) fn of(text: Text) -> LabelText
        requires { IsSomeLabel text }
        ensures { result ≡ text }
    {
        LabelText { text }
    }

    /// Its bytes, as written.
    pub fn as_bytes(&self) -> &[u8]
        ensures text { result.now ≡ self.now }
        ensures label { IsSomeLabel self.now }
    {
        self.text.as_bytes()
    }

    /// The text that it is kept as.
    pub fn as_text(&self) -> &Text
        ensures text { result.now ≡ self.now }
        ensures label { IsSomeLabel self.now }
    {
        &self.text
    }
}

impl PartialEq for LabelText {
    ghost eq = { pointwise nat_eq };

    ghost laws = { partial_equiv_from_equiv nat_list_eq_equiv };

    fn eq(&self, other: &LabelText) -> bool {
        self.text == other.text
    }
}

impl Eq for LabelText {
    ghost laws = { nat_list_eq_equiv };
}

impl Hash for LabelText {
    ghost use Rattle.std.specs.Hash as fed;
    ghost use Rattle.shared_text.specs.Texts.{hash_of, hash_of_equal};

    ghost hash_input = { λ t. fed.u64 (hash_of t) };

    ghost respects_eq = { hash_of_equal };

    fn hash<H: Hasher>(&self, state: &mut H) {
        self.text.hash(state);
    }
}
