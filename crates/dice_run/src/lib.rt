//! `dice run`: a script from a source, its output into a sink.
#![tactic(auto)]

mod append;
mod bulk;
mod carried;
mod client;
mod driven;
mod driver;
mod kept;
mod named;
mod outlook;
mod printer;
mod request;
mod run_of;
mod status;
mod workers;

pub use dice_engine::{Gate, Open};
pub use dice_io::{
    MemorySink, MemorySource, RealSink, RealSource, Sink, Source, SureSink, SureSource,
};
pub use kept::Kept;
pub use run_of::run;
pub use status::Status;
pub use workers::drive;
