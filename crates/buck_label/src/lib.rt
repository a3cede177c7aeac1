//! Paths, packages and labels of targets.
#![tactic(auto)]

mod label;
mod package;
mod path;

pub use label::{Label, is_label_text, labels_are_short, printed_is_read};
pub use package::Package;
pub use path::{Path, Refused, is_path};
pub use shared_text::Text;
