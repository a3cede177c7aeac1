//! Packages.
ghost use Rattle.std.specs.Prelude.{◌≡◌, ◌↔◌, true, IfOk, IsErrOf, Some, nat_eq, refl};
ghost use Rattle.std.specs.Ordering.{nat_cmp};
ghost use Rattle.std.specs.Hash as fed;
ghost use Rattle.std.specs.Cmp.Lexicographic.{pointwise, slice_cmp, nat_list_eq_equiv, nat_list_cmp_total, texts_po, texts_ties};
ghost use Rattle.std.specs.Cmp.{partial_equiv_from_equiv};
ghost use Rattle.shared_text.specs.Texts.{hash_of, hash_of_equal};
ghost use Rattle.buck_label.specs.Paths.{IsPathText};
ghost use Rattle.buck_label.specs.Labels.{IsPackage, within, target_file_of, printed_package};

use crate::path::{Path, Refused, is_path};
use shared_text::Text;
use std::alloc::{AllocError, Global};
use std::cmp::Ordering;
use std::hash::{Hash, Hasher};
use std::marker::Model;

/// A package: a path as written, or the root, which has no bytes. A contract sees it as its bytes.
/// Like a path it is kept once.
#[derive(Drop)]
pub struct Package {
    text: Text,
}

impl Model for Package {
    ghost use Rattle.std.specs.Prelude.{List, ℕ};
    ghost use Rattle.buck_label.specs.Labels.{IsPackage};

    ghost Value = { List ℕ };

    ghost view = { λ p. p.text };

    ghost invariant = { λ p. IsPackage p.text };
}

pub(crate) fn is_package(bytes: &[u8]) -> bool
    ensures { (result ≡ true) ↔ IsPackage bytes.now }
{
    bytes.is_empty() || is_path(bytes)
}

/// The path of a file that is named in this package.
pub(crate) fn join(alloc: Global, home: &[u8], path: &Path) -> Result<Path, AllocError>
    requires { IsPackage home.now }
    ensures { IfOk result (λ p. p ≡ within home.now path.now) }
{
    if home.is_empty() {
        return path.try_clone();
    }
    let name = path.as_bytes();
    let mut bytes = Vec::from_slice(alloc, home)?;
    bytes.push(b'/')?;
    bytes.extend_from_slice(name)?;
    Path::of(alloc, bytes)
}

impl Package {
    /// Reads a package; the root has no bytes. `Bad` exactly if the bytes are no package.
    pub fn read(alloc: Global, bytes: &[u8]) -> Result<Package, Refused>
        ensures found { IfOk result (λ p. (p ≡ bytes.now) × IsPackage bytes.now) }
        ensures bad { IsErrOf result Refused.Bad → IsPackage bytes.now → ⊥ }
    {
        if !is_package(bytes) {
            return Err(Refused::Bad);
        }
        Ok(Package::of(alloc, bytes)?)
    }

    /// The package of these bytes.
    pub(crate) fn of(alloc: Global, bytes: &[u8]) -> Result<Package, AllocError>
        requires { IsPackage bytes.now }
        ensures { IfOk result (λ p. p ≡ bytes.now) }
    {
        let text = Text::from_slice(alloc, bytes)?;
        Ok(Package { text })
    }

    /// Its bytes: none of the root.
    pub fn as_bytes(&self) -> &[u8]
        ensures text { result.now ≡ self.now }
        ensures is_package { IsPackage self.now }
    {
        self.text.as_bytes()
    }

    /// The path of a file that is named in this package: `PACKAGE/PATH`, in the root `PATH`.
    /// It may have more than 255 bytes.
    pub fn join(&self, alloc: Global, path: &Path) -> Result<Path, AllocError>
        ensures { IfOk result (λ p. p ≡ within self.now path.now) }
    {
        join(alloc, self.as_bytes(), path)
    }

    /// The path of the file that lists this package's targets: `PACKAGE/BUCK`, of the root `BUCK`.
    pub fn target_file(&self, alloc: Global) -> Result<Path, AllocError>
        ensures { IfOk result (λ p. p ≡ target_file_of self.now) }
    {
        let name = Path::of(alloc, Vec::from_slice(alloc, b"BUCK")?)?;
        self.join(alloc, &name)
    }

    /// The package as it prints: `//PACKAGE`, the root `//`.
    pub fn print(&self, alloc: Global) -> Result<Vec<u8>, AllocError>
        ensures { IfOk result (λ v. v.items ≡ printed_package self.now) }
    {
        let mut bytes = Vec::from_slice(alloc, b"//")?;
        bytes.extend_from_slice(self.as_bytes())?;
        Ok(bytes)
    }

    /// The text that it is kept as.
    pub fn as_text(&self) -> &Text
        ensures { result.now ≡ self.now }
    {
        &self.text
    }

    /// The same package again; no byte is copied.
    pub fn try_clone(&self) -> Result<Package, AllocError>
        ensures { IfOk result (λ p. p ≡ self.now) }
    {
        let text = self.text.try_clone()?;
        Ok(Package { text })
    }
}

impl PartialEq for Package {
    ghost eq = { pointwise nat_eq };

    ghost laws = { partial_equiv_from_equiv nat_list_eq_equiv };

    fn eq(&self, other: &Package) -> bool {
        self.text == other.text
    }
}

impl Eq for Package {
    ghost laws = { nat_list_eq_equiv };
}

impl PartialOrd for Package {
    ghost partial_cmp = { λ x y. Some (slice_cmp nat_cmp x y) };

    ghost laws = { texts_po };

    fn partial_cmp(&self, other: &Package) -> Option<Ordering> {
        Some(self.cmp(other))
    }
}

impl Ord for Package {
    ghost cmp = { slice_cmp nat_cmp };

    ghost total = { nat_list_cmp_total };

    ghost matches_partial_cmp = { λ x y. refl };

    ghost matches_eq = { texts_ties };

    fn cmp(&self, other: &Package) -> Ordering {
        self.text.cmp(&other.text)
    }
}

impl Hash for Package {
    ghost hash_input = { λ t. fed.u64 (hash_of t) };

    ghost respects_eq = { hash_of_equal };

    fn hash<H: Hasher>(&self, state: &mut H) {
        self.text.hash(state);
    }
}
