//! What stands for a script: its output, and the text of a trace of it. None of these functions
//! does any work.
#![tactic(auto)]

mod laws;

pub use laws::traces_are_one;
