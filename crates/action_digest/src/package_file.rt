//! The target file of a package, as it was read.
ghost use Rattle.std.specs.Prelude.{◌≡◌};
ghost use Rattle.std.specs.Cmp.{partial_equiv_from_equiv};
ghost use Rattle.target_file.specs.Contents.{Holds, contents};
ghost use Rattle.target_file.specs.Laws.{file_equiv};
ghost use Rattle.target_file.specs.Targets.{same_file};

use buck_label::Text;
use std::marker::Model;
use target_file::File;

/// The targets of a package, beside the text of the target file that they were read from. Contracts
/// see the targets alone.
///
/// Whether two are equal costs a comparison of the texts if these are the same. Otherwise files
/// with other targets are mostly told apart by a hash, and files of the same targets cost a
/// comparison of all of them.
#[derive(Drop)]
pub struct PackageFile {
    source: Text,
    file: File,
}

impl Model for PackageFile {
    ghost use Rattle.std.specs.Prelude.{◌≡◌, List};
    ghost use Rattle.target_file.specs.Targets.{Located};
    ghost use Rattle.target_file.specs.Contents.{Holds, contents};

    ghost Value = { List Located };

    ghost view = { λ p. p.file };

    ghost invariant = { λ p. contents p.source ≡ Holds p.file };
}

impl PackageFile {
    /// The file that this text holds.
    pub(crate) fn of(source: Text, file: File) -> PackageFile
        requires { contents source ≡ Holds file }
        ensures { result ≡ file }
    {
        PackageFile { source, file }
    }

    /// The targets.
    pub fn file(&self) -> &File
        ensures { result.now ≡ self.now }
    {
        &self.file
    }
}

impl PartialEq for PackageFile {
    ghost eq = { same_file };

    ghost laws = { partial_equiv_from_equiv file_equiv };

    fn eq(&self, other: &PackageFile) -> bool {
        self.source == other.source || self.file == other.file
    }
}

impl Eq for PackageFile {
    ghost laws = { file_equiv };
}
