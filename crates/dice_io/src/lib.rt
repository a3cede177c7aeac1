//! Where the bytes of a run come from and go to. There are the traits of a source and a sink, those
//! in memory and those of the process, and two loops: one reads a whole input, and one writes a
//! whole output.
#![tactic(auto)]

mod copying;
mod edge;
mod memory;
mod process;
mod sure;

pub use copying::{read_all, write_all};
pub use edge::{Failed, NoMemory, ReadFail, Sink, Source};
pub use memory::{MemorySink, MemorySource};
pub use process::{RealSink, RealSource};
pub use sure::{SureSink, SureSource};
