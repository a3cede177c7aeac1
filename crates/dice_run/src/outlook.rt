//! What the driver sees without a turn.
ghost use Rattle.std.specs.Prelude.{◌≡◌, ◌≤◌, [], IfSome, length};
ghost use Rattle.std.specs.Arc.{arc_value};
ghost use Rattle.dice_model.specs.Eval.{HasValue};
ghost use Rattle.action_digest.specs.Buck.{buck};
ghost use Rattle.action_digest.specs.Same.{key_equal};
ghost use Rattle.dice_run.specs.Seats.{Place, IsOurs, Goes, log_in};
ghost use Rattle.dice_engine.specs.Turns.{log_of};
ghost use Rattle.dice_run.specs.Looking.{Sees};

use action_digest::{Buck, Value};
use dice_engine::{Engine, Promise, Reader, Seat, Transaction, looks_after_a_tell};
use std::alloc::Global;
use std::sync::{Arc, Wait};

/// The driver's reader, and what it is used for.
#[derive(Drop)]
pub(crate) struct Outlook {
    /// There is none, or no more, if a `tell` was not true: it would not see all that is finished.
    reader: Option<Reader<Buck>>,
    /// The newest version of which the reader was told.
    told: u64,
    /// The promises that a look answered and that were not polled since.
    pub(crate) unpolled: Vec<Promise<Buck>>,
}

impl Outlook {
    /// An outlook by this reader, if there is one. Nothing was looked at yet.
    pub(crate) fn new(alloc: Global, reader: Option<Reader<Buck>>) -> Outlook
        ensures sees { (s : Place) → Sees s result }
        ensures unpolled { result.unpolled.items ≡ [] }
    {
        Outlook {
            reader,
            told: 0,
            unpolled: Vec::new(alloc),
        }
    }

    /// The reader is told what is finished. `version` is the newest version.
    pub(crate) fn tell<R: Wait>(
        &mut self,
        rt: &R,
        engine: &Engine<Buck>,
        seat: &mut Seat<Buck>,
        version: u64,
    )
        requires ours { IsOurs engine.now seat.old }
        requires newest { version ≤ length (log_in seat.old) }
        ensures goes { Goes engine.now seat.old seat.new [] }
        ensures sees { Sees seat.new self.new }
        ensures unpolled { self.new.unpolled ≡ self.old.unpolled }
    {
        let Some(reader) = &mut self.reader else {
            return;
        };
        if engine.tell(rt, seat, reader) {
            self.told = version;
        } else {
            self.reader = None;
        }
    }

    /// The value of the key that was asked for, if the reader sees it at its version.
    pub(crate) fn look(
        &mut self,
        engine: &Engine<Buck>,
        promise: &Promise<Buck>,
    ) -> Option<Arc<Value>>
        ensures value { IfSome result (λ x. (s : Place) → Sees s self.old
            → HasValue key_equal buck (log_of s.seen) promise.now.version
            (arc_value promise.now.key) (arc_value x)) }
        ensures sees { (s : Place) → Sees s self.old → Sees s self.new }
        ensures unpolled { self.new.unpolled ≡ self.old.unpolled }
    {
        let Some(reader) = &mut self.reader else {
            return None;
        };
        if promise.version > self.told {
            return None;
        }
        let transaction = Transaction {
            version: promise.version,
            opened: promise.opened,
        };
        looks_after_a_tell::<Buck>();
        match engine.quick(reader, &transaction, &promise.key) {
            Ok(value) => value,
            Err(_) => None,
        }
    }
}
