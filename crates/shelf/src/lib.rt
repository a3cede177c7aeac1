//! A shelf of finished values. One end writes, and readers look without a wait, in any thread. What
//! a reader sees begins with all that it saw or was told of, and each row in it is the value of its
//! key.
#![tactic(auto)]

mod door;
mod laws;
mod op;
mod pen;
mod reader;
mod row;
mod rule;
mod shelver;
mod store;
mod told;

pub use door::Door;
pub use laws::beginnings_are_sound;
pub use op::{Plain, ShelfOp};
pub use pen::{Keeping, Pen};
pub use reader::{LookRefusal, Reader};
pub use rule::{Note, OnShelf, See, Seen};
pub use shelver::Shelver;
pub use store::Store;
pub use told::Told;
