//! Recording what a run asks.
ghost use Rattle.std.specs.Prelude.{◌≡◌, ◌≢◌, ◌++◌, ◌∷◌, [], ℕ, List, length, Some, None, OnOk, OnErr};
ghost use Rattle.dice_key.specs.Meaning.{Ends};
ghost use Rattle.dice_key.specs.declared.universe.Kind.TheVariants.{Injected};
ghost use Rattle.dice_model.specs.Asks.{Goes, IsTrace};
ghost use Rattle.dep_recorder.specs.Recordings.{IsWaitingFor, with_answers};

use crate::trace::Trace;
use dice_key::{Answers, Batch, NoMemory, Universe};
use std::alloc::Global;
use std::marker::Model;

/// What a run asked so far, and what was answered.
pub struct Recorder<U: Universe> {
    trace: Trace<U>,
    asked: Option<Batch<U::Key>>,
}

// (One function for all places that drop one: a derived drop is written out at each.)
impl<U: Universe> Drop for Recorder<U> {
    fn drop(self) {
        let Recorder {
            trace: _trace,
            asked: _asked,
        } = self;
    }
}

impl<U: Universe> Model for Recorder<U> {
    ghost use Rattle.dep_recorder.specs.Recordings.{Recording};

    ghost Value = { Recording U.Key U.Value };

    ghost view = { λ r. record { answered = r.trace; asked = r.asked } };
}

impl<U: Universe> Recorder<U> {
    /// Nothing was asked yet. It takes no memory.
    pub fn new(alloc: Global) -> Recorder<U>
        ensures { result ≡ record { answered = []; asked = None } }
    {
        Recorder {
            trace: Trace::new(alloc),
            asked: None,
        }
    }

    /// The run asks a batch, when all before it are answered. At an error the recorder is as
    /// before.
    pub fn ask(&mut self, batch: Batch<U::Key>) -> Result<(), NoMemory>
        requires { self.old.asked ≡ None }
        ensures ok { OnOk result
            (self.new ≡ record { answered = self.old.answered; asked = Some batch }) }
        ensures err { OnErr result (self.new ≡ self.old) }
    {
        self.asked = Some(batch);
        Ok(())
    }

    /// The batch that was asked last is answered, with a value for each of its keys. At an error
    /// the recorder is as before.
    pub fn answer(&mut self, answers: Answers<U::Value>) -> Result<(), NoMemory>
        requires { IsWaitingFor (length answers) self.old }
        ensures ok { OnOk result (self.new ≡ with_answers self.old answers) }
        ensures err { OnErr result (self.new ≡ self.old) }
    {
        if let Some(batch) = &self.asked {
            self.trace.push(batch, &answers)?;
        }
        self.asked = None;
        Ok(())
    }

    /// The batches that are answered.
    pub fn answered(&self) -> &Trace<U>
        ensures { result.now ≡ self.now.answered }
    {
        &self.trace
    }

    /// The batches with their answers, in order, when each batch is answered.
    ///
    /// Of a recorder that went with a run at a version, to its end, this is the run's trace there.
    pub fn finish(self) -> Trace<U>
        requires { self.asked ≡ None }
        ensures all { result ≡ self.answered }
        ensures trace { (C : List (List (U.Key × U.Value))) (v : ℕ) (k : U.Key) (x : U.Value)
            → U.meaning.kind k ≢ Injected → Goes U.Key.eq U.meaning C v k [] self.answered
            → U.meaning.next k self.answered v ≡ Ends x
            → IsTrace U.Key.eq U.meaning C v k result x }
    {
        let Recorder {
            trace,
            asked: _asked,
        } = self;
        trace
    }
}
