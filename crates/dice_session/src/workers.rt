//! Workers beside a session.
ghost use Rattle.std.specs.Prelude.{All};
ghost use Rattle.std.specs.Arc.{arc_value};
ghost use Rattle.dice_engine.specs.Seating.{IsPlaceOf};

use dice_engine::{Engine, Open, Place};
use dice_key::Universe;
use std::sync::{Arc, Wait};
use std::thread::Threads;

/// Workers for a session, who have not begun: its engine, and a seat for each.
#[derive(Drop)]
pub struct Workers<U: Universe> {
    pub(crate) engine: Arc<Engine<U>>,
    pub(crate) seats: Vec<Place<U>>,
    ghost theirs: { All (IsPlaceOf (arc_value engine)) seats.items },
}

impl<U: Universe> Workers<U> {
    /// Calls `f` in this thread. The workers do jobs of the session beside it, each in a thread of
    /// its own, until `f` has returned. If no thread can be made for a worker, the others and `f`
    /// do its jobs.
    pub fn beside<R: Threads + Wait + Sync, T, F: FnOnce() -> T>(self, rt: &R, f: F) -> T
        requires { F.pre f }
        ensures { F.post f result }
    {
        let Workers { engine, seats, .. } = self;
        engine.with_workers(rt, seats, &Open, f)
    }
}
