//! Turns on one state. A seat takes a ticket and waits until it is served. Then it has the state
//! alone, until it leaves. The state stands for a list of events that only grows, and what each
//! seat has seen is a beginning of that one list.
#![tactic(auto)]

mod calls;
mod lend;
mod make;
mod no_memory;
mod plays;
mod seat;
mod served;
mod table;
mod tale;
mod turn;
mod turns;
mod view;

pub use no_memory::NoMemory;
pub use seat::Seat;
pub use table::{InTurns, Turnstile};
pub use tale::Tale;
pub use turn::Turn;
pub use view::{Note, Stage, View};
