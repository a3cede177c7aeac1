//! Names of transactions and requests.
ghost use Rattle.std.specs.Prelude.{◌≡◌, ◌↔◌, ◌≤◌, true, length, Some, nat_eq, refl, IfOk, IfSome, IfNone};
ghost use Rattle.std.specs.Cmp.Lexicographic.{pointwise, nat_list_eq_equiv};
ghost use Rattle.std.specs.Cmp.{partial_equiv_from_equiv};
ghost use Rattle.script.specs.Lines.{is_name_byte, AreNameBytes, IsName};

use buck_label::Text;
use std::alloc::{AllocError, Global};
use std::marker::Model;

/// A name: 1 to 32 letters, digits, `_` or `-`. A contract sees it as its bytes. They are kept
/// once: a clone copies none.
#[derive(Drop)]
pub struct Name {
    text: Text,
}

impl Model for Name {
    ghost use Rattle.std.specs.Prelude.{List, ℕ};
    ghost use Rattle.script.specs.Lines.{IsName};

    ghost Value = { List ℕ };

    ghost view = { λ n. n.text };

    ghost invariant = { λ n. IsName n.text };
}

fn is_name_byte(byte: u8) -> bool
    ensures { result ≡ is_name_byte byte }
{
    matches!(byte, b'a'..=b'z' | b'A'..=b'Z' | b'0'..=b'9' | b'_' | b'-')
}

fn are_name_bytes(bytes: &[u8]) -> bool
    ensures { (result ≡ true) ↔ AreNameBytes bytes.now }
{
    for byte in bytes {
        if !is_name_byte(*byte) {
            return false;
        }
    }
    true
}

pub(crate) fn is_name(bytes: &[u8]) -> bool
    ensures { (result ≡ true) ↔ IsName bytes.now }
{
    !bytes.is_empty() && bytes.len() <= 32 && are_name_bytes(bytes)
}

impl Name {
    pub(crate) fn of(alloc: Global, bytes: &[u8]) -> Result<Name, AllocError>
        requires { IsName bytes.now }
        ensures { IfOk result (λ n. n ≡ bytes.now) }
    {
        let text = Text::from_slice(alloc, bytes)?;
        Ok(Name { text })
    }

    /// Its bytes.
    pub fn as_bytes(&self) -> &[u8]
        ensures text { result.now ≡ self.now }
        ensures is_name { IsName self.now }
    {
        self.text.as_bytes()
    }

    /// The text that it is kept as.
    pub fn as_text(&self) -> &Text
        ensures { result.now ≡ self.now }
    {
        &self.text
    }

    /// The same name again; no byte is copied.
    pub fn try_clone(&self) -> Result<Name, AllocError>
        ensures { IfOk result (λ n. n ≡ self.now) }
    {
        let text = self.text.try_clone()?;
        Ok(Name { text })
    }
}

impl PartialEq for Name {
    ghost eq = { pointwise nat_eq };

    ghost laws = { partial_equiv_from_equiv nat_list_eq_equiv };

    fn eq(&self, other: &Name) -> bool {
        self.text == other.text
    }
}

impl Eq for Name {
    ghost laws = { nat_list_eq_equiv };
}
