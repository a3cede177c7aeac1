//! Scripts: paths that are put and committed, transactions, and requests for targets.
#![tactic(auto)]

mod fate;
mod fault;
mod form;
mod known;
mod line;
mod name;
mod names;
mod number;
mod operand;
mod reader;
mod requests;
mod script;
mod transactions;

pub use fault::{ScriptRefusal, Word};
pub use line::{Line, Request};
pub use name::Name;
pub use number::MOST_BYTES;
pub use script::{Script, read, readings_are_one};
