//! What comes of a job.
ghost use Rattle.std.specs.Prelude.{◌≡◌, ◌≢◌, IsTrue, ◌↔◌};
ghost use Rattle.dice_key.specs.declared.universe.Kind.TheVariants.{Injected};
ghost use Rattle.dice_jobs.specs.Alike.{AreAlike};
ghost use Rattle.dice_jobs.specs.Jobs.{Computes, AsksThese, outcome_of, IsExplained, waiting_after};

use crate::assignment::Assignment;
use crate::job::Job;
use crate::parked::Parked;
use crate::work::{Course, Stand, Work};
use dice_key::{Batch, Universe};
use std::marker::Model;
use std::sync::Arc;

/// What came of a job.
#[derive(Drop)]
pub enum Report<'a, K, V> {
    /// It wants the answers to these keys.
    Asks(&'a Batch<K>),
    /// Its key has come to this value; the batches that were answered are the trace.
    Done(&'a Arc<V>),
    /// The check found all answers as they were.
    Same,
    /// The check found that the answer to this key has changed; those to all keys before it in the
    /// trace are as they were.
    Differs(&'a Arc<K>),
}

/// A job that was advanced by one step, with what came of it.
pub struct Step<U: Universe> {
    pub(crate) work: Box<Work<U>>,
}

// (One function for all places that drop one: a derived drop is written out at each.)
impl<U: Universe> Drop for Step<U> {
    fn drop(self) {
        let Step { work: _work } = self;
    }
}

impl<U: Universe> Model for Step<U> {
    ghost use Rattle.dice_jobs.specs.Jobs.{Stepped};

    ghost Value = { Stepped U.Key U.Value };

    ghost use Rattle.dice_jobs.specs.Courses.{ended, IsEnding};

    ghost view = { λ s. record
        { job = s.work.value.assignment; outcome = ended s.work.value.stand } };

    ghost invariant = { λ s. IsEnding U.meaning U.Value.eq U.running s.work.value.assignment
        s.work.value.course s.work.value.stand };
}

impl<U: Universe> Step<U> {
    ghost use Rattle.dice_jobs.specs.Courses.{reported};

    /// What the job is for.
    pub fn assignment(&self) -> &Assignment<U>
        ensures { result.now ≡ self.now.job }
    {
        &self.work.assignment
    }

    /// Whether it is a step of this assignment: of its name, answered batches and work. It takes no
    /// memory; it costs a comparison for each key and each value.
    pub fn is_of(&self, assignment: &Assignment<U>) -> bool
        ensures { IsTrue result ↔ (self.now.job ≡ assignment.now) }
    {
        self.work.assignment.is_same(assignment)
    }

    /// Whether its job is like this assignment: of its name, of the same kind of work from the same
    /// base, and answered equally many batches. It costs a comparison of their keys, and of no
    /// value.
    pub fn is_like(&self, assignment: &Assignment<U>) -> bool
        ensures { IsTrue result ↔ AreAlike self.now.job assignment.now }
    {
        self.work.assignment.is_alike(assignment)
    }

    /// What came of the job. It takes no memory.
    pub fn report(&self) -> Report<'_, U::Key, U::Value>
        ensures report { reported result ≡ self.now.outcome }
        ensures outcome { self.now.outcome ≡ outcome_of U.meaning U.Value.eq self.now.job }
        ensures explained { IsExplained self.now.job.work self.now.job.answered self.now.outcome }
    {
        match &self.work.stand {
            Stand::Asks(batch) => Report::Asks(batch),
            Stand::Done(value) => Report::Done(value),
            Stand::Same => Report::Same,
            Stand::Differs(dep) => Report::Differs(dep),
            _ => unreachable!(),
        }
    }

    /// The job that waits, if it asks a batch; otherwise `None`. It takes no memory.
    pub fn into_parked(self) -> Option<Parked<U>>
        ensures { result ≡ waiting_after self.job self.outcome }
    {
        let Step { work } = self;
        match &work.stand {
            Stand::Asks(_) => Some(Parked { work }),
            _ => None,
        }
    }

    /// A run of a key that is not injected, after these answered batches, which are those that it
    /// asks first. It begins, and goes through them, when it is advanced. It lies in the box of the
    /// step, whose own job is given up. It takes no memory.
    pub fn into_replay(self, assignment: Assignment<U>) -> Job<U>
        requires work { assignment.work ≡ Computes }
        requires kind { U.meaning.kind assignment.name.key ≢ Injected }
        requires asks { AsksThese U.meaning assignment.name.key assignment.name.version
            assignment.answered }
        ensures { result ≡ assignment }
    {
        let Step { mut work } = self;
        work.assignment = assignment;
        work.course = Course::Idle;
        work.stand = Stand::Ready;
        Job { work }
    }
}
