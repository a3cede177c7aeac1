//! What a run leaves.
ghost use Rattle.dice_engine.specs.Seats.{IsSeatOf};

use action_digest::Buck;
use dice_engine::{Ended, Engine, Seat};
use std::sync::Wait;

/// An engine, and the driver's seat at it after its last turn.
#[derive(Drop)]
pub struct Kept {
    pub engine: Engine<Buck>,
    pub seat: Seat<Buck>,
    ghost seated: { IsSeatOf engine seat },
}

impl Kept {
    /// Ends the engine. What it held goes with the answer.
    pub fn end<R: Wait>(self, rt: &R) -> Ended<Buck> {
        let Kept { engine, seat } = self;
        engine.end(rt, seat)
    }
}

/// Ends the engine, if there is one.
pub(crate) fn end<R: Wait>(rt: &R, kept: Option<Kept>) {
    if let Some(kept) = kept {
        kept.end(rt);
    }
}
