//! What the engine is measured by: the log of commits, and evaluation from nothing.
#![tactic(auto)]

mod commits;
mod evaluator;
mod laws;

pub use commits::Commits;
pub use evaluator::plain;
pub use laws::{
    inputs_are_settled, same_answers_give_the_value, traces_are_settled, values_are_settled,
};
