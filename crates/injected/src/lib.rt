//! The values of injected keys, at each version.
#![tactic(auto)]

mod history;
mod laws;
mod sets;
mod store;

pub use laws::{cells_are_the_inputs, cells_in_order};
pub use store::Cells;
