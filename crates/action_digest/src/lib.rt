//! The universe of Buck targets: sources, packages, rules, actions and digests.
#![tactic(auto)]

mod action;
mod asked;
mod buck;
mod contents;
mod cycle;
mod fault;
mod fronts;
mod key;
mod laws;
mod package_file;
mod rule;
mod run;
mod value;

pub use buck::Buck;
pub use contents::Contents;
pub use cycle::labels_of_cycle;
pub use fault::Fault;
pub use fronts::{ActionKey, DigestKey, PackageKey, RuleKey, SourceKey};
pub use key::Key;
pub use laws::{cycles_are_of_labels, keys_are_settled, labels_in_full, packages_by_grammar};
pub use package_file::PackageFile;
pub use rule::Rule;
pub use run::Run;
pub use value::{ActionText, Value};
