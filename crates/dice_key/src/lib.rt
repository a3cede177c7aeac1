//! What an engine needs of the values that it computes: keys, values, and the moves by which a key
//! comes to its value.
#![tactic(auto)]

mod batch;
mod fronts;
mod laws;
mod line;
mod path;
mod shared;
mod universe;

pub use batch::{Answers, Batch, Move};
pub use fronts::{ProjectionKey, TypedKey};
pub use hash_seed::Seed;
pub use laws::laws_of;
pub use line::Line;
pub use path::Path;
pub use universe::{KeyRef, Kind, NoMemory, Universe, ValueRef, Version};
