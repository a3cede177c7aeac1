//! Commands.
ghost use Rattle.std.specs.Prelude.{◌≡◌, nat_eq};
ghost use Rattle.std.specs.Cmp.Lexicographic.{pointwise, nat_list_eq_equiv};
ghost use Rattle.std.specs.Cmp.{partial_equiv_from_equiv};
ghost use Rattle.target_file.specs.Strings.{IsCommand, locations};

use crate::label_text::LabelText;
use buck_label::Text;
use std::hash::{Hash, Hasher};
use std::marker::Model;

/// A command with the labels that its `$(location LABEL)` name. A contract sees the text; its
/// labels, in order, are `locations` of it.
#[derive(Drop)]
pub struct Command {
    text: Text,
    labels: Vec<LabelText>,
}

impl Model for Command {
    ghost use Rattle.std.specs.Prelude.{◌≡◌, List, ℕ};
    ghost use Rattle.target_file.specs.Strings.{IsCommand, locations};

    ghost Value = { List ℕ };

    ghost view = { λ c. c.text };

    ghost invariant = { λ c. IsCommand c.text × (c.labels.items ≡ locations c.text) };
}

impl Command {
    /// The command of this text, with its labels.
    pub(crate) fn of(text: Text, labels: Vec<LabelText>) -> Command
        requires command { IsCommand text }
        requires labels { labels.items ≡ locations text }
        ensures { result ≡ text }
    {
        Command { text, labels }
    }

    /// The whole text, as its string says.
    pub fn text(&self) -> &[u8]
        ensures text { result.now ≡ self.now }
        ensures command { IsCommand self.now }
    {
        self.text.as_bytes()
    }

    /// The labels that it names, in order; one may stand there twice.
    pub fn locations(&self) -> &[LabelText]
        ensures { result.now ≡ locations self.now }
    {
        self.labels.as_slice()
    }
}

impl PartialEq for Command {
    ghost eq = { pointwise nat_eq };

    ghost laws = { partial_equiv_from_equiv nat_list_eq_equiv };

    fn eq(&self, other: &Command) -> bool {
        self.text == other.text
    }
}

impl Eq for Command {
    ghost laws = { nat_list_eq_equiv };
}

impl Hash for Command {
    ghost use Rattle.std.specs.Hash as fed;
    ghost use Rattle.shared_text.specs.Texts.{hash_of, hash_of_equal};

    ghost hash_input = { λ t. fed.u64 (hash_of t) };

    ghost respects_eq = { hash_of_equal };

    fn hash<H: Hasher>(&self, state: &mut H) {
        self.text.hash(state);
    }
}
