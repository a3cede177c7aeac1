//! Tasks that are shared by all who ask for them, and the cascade that drops those that nobody asks
//! for any longer.
#![tactic(auto)]

mod asker;
mod cascade;
mod idle;
mod place;
mod places;
mod room;
mod table;

pub use asker::{Asker, Askers, Wait};
pub use cascade::drops_unheld;
pub use table::{Table, table_in_order};
