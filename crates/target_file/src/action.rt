//! What targets do.

use crate::command::Command;
use crate::source::Sources;
use buck_label::{Path, Text};

/// What a target does: its rule, with the attributes of that rule. Every default is filled in.
/// Paths and labels are as written, so those of a package are still to be joined with it.
#[derive(PartialEq, Eq, Hash, Drop)]
pub enum Action {
    /// A file of the package as it is.
    ExportFile {
        src: Path,
        out: Path,
    },
    /// Several inputs under one name.
    Filegroup {
        srcs: Sources,
    },
    /// A file with this content.
    WriteFile {
        content: Text,
        out: Path,
    },
    /// What a command makes of its inputs.
    Genrule {
        srcs: Sources,
        out: Path,
        cmd: Command,
    },
    /// A file that holds the version.
    StampFile {
        out: Path,
    },
}
