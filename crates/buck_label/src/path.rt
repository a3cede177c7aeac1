//! Paths.
ghost use Rattle.std.specs.Prelude.{◌≡◌, ◌↔◌, ◌≤◌, ℕ, Bool, true, List, [], IsTrue, IfOk, IsErrOf, drop, length};
ghost use Rattle.buck_label.specs.Paths.{is_segment_byte, IsPathText, IsPath};
ghost use Rattle.buck_label.specs.Machine.{path_from, after, is_simple};
ghost use Rattle.buck_label.specs.Refusals.{refused_text};
ghost use Rattle.buck_label.specs.declared.path.Refused.TheVariants.{NoMemory};
ghost use Rattle.std.specs.Prelude.{Some, nat_eq, refl};
ghost use Rattle.std.specs.Ordering.{nat_cmp};
ghost use Rattle.std.specs.Cmp.Lexicographic.{pointwise, slice_cmp, nat_list_eq_equiv, nat_list_cmp_total, texts_po, texts_ties};
ghost use Rattle.std.specs.Cmp.{partial_equiv_from_equiv};
ghost use Rattle.std.specs.Hash as fed;
ghost use Rattle.shared_text.specs.Texts.{hash_of, hash_of_equal};

use shared_text::Text;
use std::alloc::{AllocError, Global};
use std::cmp::Ordering;
use std::error::Error;
use std::fmt;
use std::hash::{Hash, Hasher};
use std::marker::Model;

/// Why a text was not read.
#[derive(Clone, Copy, Debug, PartialEq, Eq)]
pub enum Refused {
    /// The text is not in the grammar.
    Bad,
    /// Memory was refused.
    NoMemory,
}

impl fmt::Display for Refused {
    ghost output = { λ refused. Some (refused_text refused) };

    fn fmt<W: fmt::Write>(&self, f: &mut fmt::Formatter<W>) -> fmt::Result {
        f.write_str(match self {
            Refused::Bad => "not a path or label",
            Refused::NoMemory => "no memory",
        })
    }
}

impl Error for Refused {}

/// How far a segment has been read.
#[derive(Clone, Copy, Debug, PartialEq, Eq)]
enum Segment {
    Empty,
    Dot,
    Dots,
    Good,
    Bad,
}

fn is_plain(byte: u8) -> bool
    ensures { result ≡ is_segment_byte byte }
{
    matches!(byte, b'a'..=b'z' | b'@'..=b'Z' | b'0'..=b'9' | b'_' | b'+'..=b'.' | b'=' | b'~')
}

fn after(segment: Segment, byte: u8) -> Segment
    ensures { result ≡ after segment byte }
{
    match segment {
        Segment::Good if byte == b'/' => Segment::Empty,
        Segment::Bad => Segment::Bad,
        _ if !is_plain(byte) => Segment::Bad,
        Segment::Empty if byte == b'.' => Segment::Dot,
        Segment::Dot if byte == b'.' => Segment::Dots,
        _ => Segment::Good,
    }
}

fn is_simple(byte: u8) -> bool
    ensures { result ≡ is_simple byte }
{
    matches!(byte, b'a'..=b'z' | b'0'..=b'9')
}

/// Whether the bytes are small letters and digits alone, as those of most segments are.
fn is_simple_word(bytes: &[u8]) -> bool
    ensures { result ≡ true → path_from Segment.Empty bytes.now ≡ Segment.Good }
{
    for i in 0..bytes.len() {
        if !is_simple(bytes[i]) {
            return false;
        }
    }
    !bytes.is_empty()
}

fn segment_of(bytes: &[u8]) -> Segment
    ensures { result ≡ path_from Segment.Empty bytes.now }
{
    if is_simple_word(bytes) {
        return Segment::Good;
    }
    let mut segment = Segment::Empty;
    for byte in bytes {
        segment = after(segment, *byte);
    }
    segment
}

fn is_path_text(bytes: &[u8]) -> bool
    ensures { (result ≡ true) ↔ IsPathText bytes.now }
{
    match segment_of(bytes) {
        Segment::Good => true,
        _ => false,
    }
}

/// Whether this is a path as written.
pub fn is_path(bytes: &[u8]) -> bool
    ensures { (result ≡ true) ↔ IsPath bytes.now }
{
    bytes.len() <= 255 && is_path_text(bytes)
}

/// A path: segments joined by slashes. As read it has at most 255 bytes; the path of a file
/// that a package names may be longer. A contract sees it as its bytes.
///
/// The bytes are kept once, with their hash beside them: a clone copies none, and comparing
/// unlike paths mostly looks at the hashes alone.
#[derive(Drop)]
pub struct Path {
    text: Text,
}

impl Model for Path {
    ghost use Rattle.std.specs.Prelude.{List, ℕ};
    ghost use Rattle.buck_label.specs.Paths.{IsPathText};

    ghost Value = { List ℕ };

    ghost view = { λ p. p.text };

    ghost invariant = { λ p. IsPathText p.text };
}

impl Path {
    /// Reads a path as written: `Bad` exactly if the bytes are no path.
    pub fn read(alloc: Global, bytes: &[u8]) -> Result<Path, Refused>
        ensures found { IfOk result (λ p. (p ≡ bytes.now) × IsPath bytes.now) }
        ensures bad { IsErrOf result Refused.Bad → IsPath bytes.now → ⊥ }
    {
        if !is_path(bytes) {
            return Err(Refused::Bad);
        }
        Ok(Path {
            text: Text::from_slice(alloc, bytes)?,
        })
    }

    /// The path of these bytes.
    pub(crate) fn of(alloc: Global, bytes: Vec<u8>) -> Result<Path, AllocError>
        requires { IsPathText bytes.items }
        ensures { IfOk result (λ p. p ≡ bytes.items) }
    {
        let text = Text::new(alloc, bytes)?;
        Ok(Path { text })
    }

    /// The path of this text, which it shares: no byte is copied or hashed.
    pub fn of_text(text: &Text) -> Result<Path, AllocError>
        requires { IsPathText text.now }
        ensures { IfOk result (λ p. p ≡ text.now) }
    {
        let text = text.try_clone()?;
        Ok(Path { text })
    }

    /// Its bytes.
    pub fn as_bytes(&self) -> &[u8]
        ensures text { result.now ≡ self.now }
        ensures path { IsPathText self.now }
    {
        self.text.as_bytes()
    }

    /// The text that it is kept as.
    pub fn as_text(&self) -> &Text
        ensures { result.now ≡ self.now }
    {
        &self.text
    }

    /// The same path again; no byte is copied.
    pub fn try_clone(&self) -> Result<Path, AllocError>
        ensures { IfOk result (λ p. p ≡ self.now) }
    {
        let text = self.text.try_clone()?;
        Ok(Path { text })
    }
}

impl From<AllocError> for Refused {
    ghost from_gives = { λ _ e. e ≡ NoMemory };

    fn from(_: AllocError) -> Refused {
        Refused::NoMemory
    }
}

impl PartialEq for Path {
    ghost eq = { pointwise nat_eq };

    ghost laws = { partial_equiv_from_equiv nat_list_eq_equiv };

    fn eq(&self, other: &Path) -> bool {
        self.text == other.text
    }
}

impl Eq for Path {
    ghost laws = { nat_list_eq_equiv };
}

impl PartialOrd for Path {
    ghost partial_cmp = { λ x y. Some (slice_cmp nat_cmp x y) };

    ghost laws = { texts_po };

    fn partial_cmp(&self, other: &Path) -> Option<Ordering> {
        Some(self.cmp(other))
    }
}

impl Ord for Path {
    ghost cmp = { slice_cmp nat_cmp };

    ghost total = { nat_list_cmp_total };

    ghost matches_partial_cmp = { λ x y. refl };

    ghost matches_eq = { texts_ties };

    fn cmp(&self, other: &Path) -> Ordering {
        self.text.cmp(&other.text)
    }
}

impl Hash for Path {
    ghost hash_input = { λ t. fed.u64 (hash_of t) };

    ghost respects_eq = { hash_of_equal };

    fn hash<H: Hasher>(&self, state: &mut H) {
        self.text.hash(state);
    }
}
