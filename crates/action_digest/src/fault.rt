//! What is wrong with a target.
ghost use Rattle.std.specs.Prelude.{◌≡◌, [], IfOk};
ghost use Rattle.action_digest.specs.declared.fault.Fault.TheVariants.{NoPackage};

use buck_label::{Label, Package, Path};
use dice_key::NoMemory;
use std::alloc::Global;

/// Why a target has no action. A fault is a value, and is passed up as it is.
#[derive(PartialEq, Eq, Drop)]
pub enum Fault {
    /// The package has no target file.
    NoPackage(Package),
    /// The target file of this path is not in the grammar, on this line.
    BadFile(Path, u64),
    /// The package has no target of this label.
    NoTarget(Label),
    /// There is no file of this path, which a target names as a source.
    NoSource(Path),
}

impl Fault {
    /// The same fault again; no text is copied.
    pub fn try_clone(&self) -> Result<Fault, NoMemory>
        ensures { IfOk result (λ f. f ≡ self.now) }
    {
        match self {
            Fault::NoPackage(package) => Ok(Fault::NoPackage(package.try_clone()?)),
            Fault::BadFile(path, line) => Ok(Fault::BadFile(path.try_clone()?, *line)),
            Fault::NoTarget(label) => Ok(Fault::NoTarget(label.try_clone()?)),
            Fault::NoSource(path) => Ok(Fault::NoSource(path.try_clone()?)),
        }
    }

    /// The root has no package: what an answer of another kind of key stands for.
    pub(crate) fn nothing(alloc: Global) -> Result<Fault, NoMemory>
        ensures { IfOk result (λ f. f ≡ NoPackage []) }
    {
        match Package::read(alloc, b"") {
            Ok(root) => Ok(Fault::NoPackage(root)),
            Err(_) => Err(NoMemory),
        }
    }
}
