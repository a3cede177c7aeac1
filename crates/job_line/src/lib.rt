//! A line of jobs. One putter puts them, and passes take them, in any thread: each job that was put
//! was taken or is left, once, first in first out.
#![tactic(auto)]

mod line;
mod no_memory;
mod pass;
mod putter;
mod rule;
mod view;

pub use line::JobLine;
pub use no_memory::NoMemory;
pub use pass::Pass;
pub use putter::Putter;
pub use rule::InLine;
pub use view::View;
