//! Labels.
ghost use Rattle.std.specs.Prelude.{◌≡◌, ◌↔◌, true, ◌<◌, ◌≤◌, ◌+◌, ◌++◌, ◌∷◌, ℕ, List, IfOk, IfSome, IfNone, IsErrOf, OnOk, take, drop, length};
ghost use Rattle.buck_label.specs.Paths.{IsPath};
ghost use Rattle.buck_label.specs.Labels.{Name, IsPackage, IsName, IsLabel, IsLabelIn, IsShort, IsLong, printed, printed_package, package_of, target_of, before_colon, last_from, NoColon, IsPair, IsSomeLabel, within};
ghost use Rattle.std.specs.Prelude.{◌≢◌};
ghost use Rattle.std.specs.List.{AllByRecursion};
ghost use Rattle.buck_label.specs.Reading.{IsRead};
ghost use Rattle.std.specs.Prelude.{Some, nat_eq, refl};
ghost use Rattle.std.specs.Ordering.{nat_cmp};
ghost use Rattle.std.specs.Cmp.Lexicographic.{pointwise, slice_cmp, nat_list_eq_equiv, nat_list_cmp_total, texts_po, texts_ties};
ghost use Rattle.std.specs.Cmp.{partial_equiv_from_equiv};
ghost use Rattle.std.specs.Hash as fed;
ghost use Rattle.shared_text.specs.Texts.{hash_of, hash_of_equal};

use crate::package::{Package, is_package, join};
use crate::path::{Path, Refused, is_path};
use shared_text::Text;
use std::alloc::{AllocError, Global};
use std::cmp::Ordering;
use std::hash::{Hash, Hasher};
use std::marker::Model;

/// The label of a target. A contract sees it as the text that it prints, `//PACKAGE:NAME`,
/// and labels are ordered by the bytes of that text.
///
/// The text is kept once, with its hash beside it: a clone copies no byte, and comparing unlike
/// labels for equality mostly looks at the hashes alone.
#[derive(Drop)]
pub struct Label {
    text: Text,
    colon: usize,
}

impl Model for Label {
    ghost use Rattle.std.specs.Prelude.{◌≡◌, ◌+◌, List, ℕ, length};
    ghost use Rattle.buck_label.specs.Labels.{Name, IsName, printed};

    ghost Value = { List ℕ };

    ghost view = { λ l. l.text };

    ghost invariant = { λ l. (n : Name) × IsName n × (l.text ≡ printed n)
        × (l.colon ≡ length n.home + 2) };
}

/// Where the first colon stands; if there is none, the length.
fn colon(bytes: &[u8]) -> usize
    ensures at { result ≡ before_colon bytes.now }
    ensures fits { result ≤ length bytes.now }
{
    for i in 0..bytes.len() {
        if bytes[i] == b':' {
            return i;
        }
    }
    bytes.len()
}

/// What stands before and after the first colon.
fn split(bytes: &[u8]) -> Option<(&[u8], &[u8])>
    ensures some { IfSome result (λ r. (bytes.now ≡ r.0.now ++ 58 ∷ r.1.now) × NoColon r.0.now) }
    ensures none { IfNone result (NoColon bytes.now) }
{
    let at = colon(bytes);
    if at == bytes.len() {
        return None;
    }
    Some((&bytes[..at], &bytes[at + 1..]))
}

/// What stands after the last slash, or all of it.
fn last(bytes: &[u8]) -> &[u8]
    ensures { result.now ≡ last_from bytes.now bytes.now }
{
    let mut start = 0;
    for i in 0..bytes.len() {
        if bytes[i] == b'/' {
            start = i + 1;
        }
    }
    &bytes[start..]
}

/// The label of a target of a package.
fn label_of(alloc: Global, home: &[u8], target: &[u8]) -> Result<Label, AllocError>
    requires { IsName (record { home = home.now; target = target.now }) }
    ensures { IfOk result (λ l. l ≡ printed (record { home = home.now; target = target.now })) }
{
    let room = home.len().saturating_add(target.len()).saturating_add(3);
    let mut text = Vec::with_capacity(alloc, room)?;
    text.extend_from_slice(b"//")?;
    text.extend_from_slice(home)?;
    let colon = text.len();
    text.push(b':')?;
    text.extend_from_slice(target)?;
    let text = Text::new(alloc, text)?;
    Ok(Label { text, colon })
}

/// //PACKAGE:NAME, by its two parts.
fn long(alloc: Global, home: &[u8], target: &[u8]) -> Result<Label, Refused>
    ensures { IsRead (IsPair home.now target.now) result }
{
    if !is_package(home) || !is_path(target) {
        return Err(Refused::Bad);
    }
    Ok(label_of(alloc, home, target)?)
}

/// //PACKAGE alone.
fn short(alloc: Global, home: &[u8]) -> Result<Label, Refused>
    ensures { IsRead (IsShort (47 ∷ 47 ∷ home.now)) result }
{
    if !is_path(home) {
        return Err(Refused::Bad);
    }
    Ok(label_of(alloc, home, last(home))?)
}

/// //PACKAGE:NAME, by its bytes and by its two parts.
fn full(alloc: Global, bytes: &[u8], home: &[u8], target: &[u8]) -> Result<Label, Refused>
    requires { bytes.now ≡ 47 ∷ 47 ∷ (home.now ++ 58 ∷ target.now) }
    ensures { IsRead (IsPair home.now target.now) result }
{
    if !is_package(home) || !is_path(target) {
        return Err(Refused::Bad);
    }
    let text = Text::from_slice(alloc, bytes)?;
    let colon = home.len() + 2;
    Ok(Label { text, colon })
}

/// A text that begins with two slashes, and what stands after them.
fn absolute(alloc: Global, bytes: &[u8], rest: &[u8]) -> Result<Label, Refused>
    requires { bytes.now ≡ 47 ∷ 47 ∷ rest.now }
    ensures { IsRead (IsLabel bytes.now) result }
{
    match split(rest) {
        Some((home, target)) => full(alloc, bytes, home, target),
        None => short(alloc, rest),
    }
}

/// The label of a text in which these bytes follow the two slashes. A label in full shares the
/// text.
fn shared(alloc: Global, text: &Text, rest: &[u8]) -> Result<Label, AllocError>
    requires text { text.now ≡ 47 ∷ 47 ∷ rest.now }
    requires label { (n : Name) × IsLabel text.now n }
    ensures { IfOk result (λ l. (n : Name) × IsLabel text.now n × (l ≡ printed n)) }
{
    match split(rest) {
        Some((home, _)) => {
            let text = text.try_clone()?;
            let colon = home.len() + 2;
            Ok(Label { text, colon })
        }
        None => Ok(label_of(alloc, rest, last(rest))?),
    }
}

/// The label of an absolute text, in any package.
fn absolute_of(alloc: Global, text: &Text, home: &[u8]) -> Result<Label, AllocError>
    requires { (n : Name) × IsLabel text.now n }
    ensures { IfOk result (λ l. (n : Name) × IsLabelIn home.now text.now n × (l ≡ printed n)) }
{
    match text.as_bytes() {
        [b'/', b'/', rest @ ..] => Ok(shared(alloc, text, rest)?),
        _ => unreachable!(),
    }
}

/// The label of the text `:NAME`, by the name.
fn local_of(alloc: Global, home: &[u8], target: &[u8]) -> Result<Label, AllocError>
    requires home { IsPackage home.now }
    requires target { IsPath target.now }
    ensures { IfOk result
        (λ l. (n : Name) × IsLabelIn home.now (58 ∷ target.now) n × (l ≡ printed n)) }
{
    Ok(label_of(alloc, home, target)?)
}

impl Label {
    /// Reads an absolute label, `//PACKAGE:NAME` or `//PACKAGE`: `Bad` exactly if the bytes are no
    /// such label.
    pub fn read(alloc: Global, bytes: &[u8]) -> Result<Label, Refused>
        ensures { IsRead (IsLabel bytes.now) result }
    {
        match bytes {
            [b'/', b'/', rest @ ..] => absolute(alloc, bytes, rest),
            _ => Err(Refused::Bad),
        }
    }

    /// Reads a label that stands in the target file of a package: an absolute one, or `:NAME`.
    pub fn read_in(alloc: Global, bytes: &[u8], home: &Package) -> Result<Label, Refused>
        ensures { IsRead (IsLabelIn home.now bytes.now) result }
    {
        match bytes {
            [b':', target @ ..] => long(alloc, home.as_bytes(), target),
            _ => Label::read(alloc, bytes),
        }
    }

    /// The label that a text names in the target file of this package. One that is written in full
    /// shares the text, so that no byte is copied or hashed.
    pub fn of_text(alloc: Global, text: &Text, home: &[u8]) -> Result<Label, AllocError>
        requires text { IsSomeLabel text.now }
        requires home { IsPackage home.now }
        ensures { IfOk result (λ l. (n : Name) × IsLabelIn home.now text.now n × (l ≡ printed n)) }
    {
        match text.as_bytes() {
            [b':', target @ ..] => local_of(alloc, home, target),
            _ => absolute_of(alloc, text, home),
        }
    }

    /// The label as it prints, `//PACKAGE:NAME`.
    pub fn as_bytes(&self) -> &[u8]
        ensures text { result.now ≡ self.now }
        ensures printed { (n : Name) × IsName n × (self.now ≡ printed n) }
    {
        self.text.as_bytes()
    }

    /// Whether these bytes are an absolute label that is read as this one: as it prints, or without
    /// the target where that is the package's last segment. No memory is taken.
    pub fn is_written(&self, bytes: &[u8]) -> bool
        ensures { (result ≡ true) ↔ ((n : Name) × IsLabel bytes.now n × (self.now ≡ printed n)) }
    {
        let text = self.text.as_bytes();
        if bytes.len() == self.colon {
            return bytes == &text[..self.colon] && last(self.package_bytes()) == self.name();
        }
        bytes == text
    }

    /// The label as it prints, in bytes of its own.
    pub fn print(&self, alloc: Global) -> Result<Vec<u8>, AllocError>
        ensures { IfOk result (λ v. v.items ≡ self.now) }
    {
        Vec::from_slice(alloc, self.as_bytes())
    }

    /// The bytes of the package: none of the root.
    pub fn package_bytes(&self) -> &[u8]
        ensures home { result.now ≡ package_of self.now }
        ensures is_package { IsPackage result.now }
    {
        &self.as_bytes()[2..self.colon]
    }

    /// The package.
    pub fn package(&self, alloc: Global) -> Result<Package, AllocError>
        ensures { IfOk result (λ p. p ≡ package_of self.now) }
    {
        Package::of(alloc, self.package_bytes())
    }

    /// The path of a file that is named in the label's package, as `Package::join` gives it.
    pub fn join(&self, alloc: Global, path: &Path) -> Result<Path, AllocError>
        ensures { IfOk result (λ p. p ≡ within (package_of self.now) path.now) }
    {
        join(alloc, self.package_bytes(), path)
    }

    /// The target's name.
    pub fn name(&self) -> &[u8]
        ensures name { result.now ≡ target_of self.now }
        ensures is_path { IsPath result.now }
    {
        &self.as_bytes()[self.colon + 1..]
    }

    /// The same label again; no byte is copied.
    pub fn try_clone(&self) -> Result<Label, AllocError>
        ensures { IfOk result (λ l. l ≡ self.now) }
    {
        let text = self.text.try_clone()?;
        let colon = self.colon;
        Ok(Label { text, colon })
    }
}

/// What prints is read as the same label.
pub fn printed_is_read()
    ensures long { (n : Name) → IsName n → IsLabel (printed n) n }
    ensures only { (text : List ℕ) (m n : Name) → IsLabel text m → IsLabel text n → m ≡ n }
    ensures parts { (n : Name) → IsName n
        → (package_of (printed n) ≡ n.home) × (target_of (printed n) ≡ n.target) }
{}

/// Whether this is an absolute label or :NAME, as written.
pub fn is_label_text(bytes: &[u8]) -> bool
    ensures { (result ≡ true) ↔ IsSomeLabel bytes.now }
{
    match bytes {
        [b':', target @ ..] => is_local(target),
        [b'/', b'/', rest @ ..] => is_absolute(rest),
        _ => false,
    }
}

fn is_local(target: &[u8]) -> bool
    ensures { (result ≡ true) ↔ IsSomeLabel (58 ∷ target.now) }
{
    is_path(target)
}

fn is_absolute(rest: &[u8]) -> bool
    ensures { (result ≡ true) ↔ ((n : Name) × IsLabel (47 ∷ 47 ∷ rest.now) n) }
{
    match split(rest) {
        Some((home, target)) => is_package(home) && is_path(target),
        None => is_path(rest),
    }
}

/// A label has at most 513 bytes, and none is a parenthesis.
pub fn labels_are_short()
    ensures short { (text : List ℕ) → IsSomeLabel text → length text ≤ 513 }
    ensures no_close { (text : List ℕ) → IsSomeLabel text → AllByRecursion (λ b. b ≢ 41) text }
{}

impl PartialEq for Label {
    ghost eq = { pointwise nat_eq };

    ghost laws = { partial_equiv_from_equiv nat_list_eq_equiv };

    fn eq(&self, other: &Label) -> bool {
        self.text == other.text
    }
}

impl Eq for Label {
    ghost laws = { nat_list_eq_equiv };
}

impl PartialOrd for Label {
    ghost partial_cmp = { λ x y. Some (slice_cmp nat_cmp x y) };

    ghost laws = { texts_po };

    fn partial_cmp(&self, other: &Label) -> Option<Ordering> {
        Some(self.cmp(other))
    }
}

impl Ord for Label {
    ghost cmp = { slice_cmp nat_cmp };

    ghost total = { nat_list_cmp_total };

    ghost matches_partial_cmp = { λ x y. refl };

    ghost matches_eq = { texts_ties };

    fn cmp(&self, other: &Label) -> Ordering {
        self.text.cmp(&other.text)
    }
}

impl Hash for Label {
    ghost hash_input = { λ t. fed.u64 (hash_of t) };

    ghost respects_eq = { hash_of_equal };

    fn hash<H: Hasher>(&self, state: &mut H) {
        self.text.hash(state);
    }
}
