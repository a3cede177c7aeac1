//! Target files: their grammar, what their calls mean, and the line of a fault.
#![tactic(auto)]

mod action;
mod call;
mod command;
mod fault;
mod file;
mod given;
mod label_text;
mod laws;
mod locating;
mod making;
mod mark;
mod mode;
mod names;
mod place;
mod progress;
mod quoted;
mod reader;
mod reading;
mod source;
mod strings;
mod table;
mod target;

pub use action::Action;
pub use command::Command;
pub use fault::FileFault;
pub use file::{File, Located};
pub use label_text::LabelText;
pub use laws::{calls_by_meaning, contents_by_grammar, tokens_by_grammar, worked_texts};
pub use reading::read;
pub use source::{Source, Sources};
pub use target::Target;
