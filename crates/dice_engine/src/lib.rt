//! The engine: one core, whose calls many threads take in turns.
#![tactic(auto)]

mod bench;
mod calls;
mod engine;
mod events;
mod gate;
mod laws;
mod ledge;
mod lines;
mod promise;
mod readers;
mod seat;
mod settling;
mod state;
mod updater;
mod workers;
mod working;

pub use dice_core::CommitRefusal;
pub use engine::{Ended, Engine};
pub use gate::{Gate, Open};
pub use journal::{Cause, Changes, Event};
pub use laws::{
    conditions_stay, decided_when_closed, decisions_stay, looks_after_a_tell, one_writer_knows_all,
    own_asks_are_live, replies_are_exact, turns_go_on,
};
pub use promise::{Answer, Promise, Settled, Transaction, Worked};
pub use seat::{Place, Seat, SeatOf};
pub use settling::{leaving_decides_nothing, nothing_hangs, pending_is_exact};
pub use shelf::{LookRefusal, Reader};
pub use state::State;
pub use updater::Updater;
