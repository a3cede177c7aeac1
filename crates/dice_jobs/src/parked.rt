//! Jobs that wait for answers.
ghost use Rattle.std.specs.Prelude.{◌≡◌, length, true, IfOk};
ghost use Rattle.dice_jobs.specs.Jobs.{Agrees, answered_more};
ghost use Rattle.dice_jobs.specs.Courses.{IsParked, IsReady, wanted};

use crate::assignment::Assignment;
use crate::job::Job;
use crate::work::{Course, Stand, Work};
use dice_key::{Answers, Batch, NoMemory, Universe};
use std::marker::Model;

/// A job between two steps: it waits for the answers to a batch.
pub struct Parked<U: Universe> {
    pub(crate) work: Box<Work<U>>,
}

// (One function for all places that drop one: a derived drop is written out at each.)
impl<U: Universe> Drop for Parked<U> {
    fn drop(self) {
        let Parked { work: _work } = self;
    }
}

impl<U: Universe> Model for Parked<U> {
    ghost use Rattle.dice_jobs.specs.Jobs.{Waits};

    ghost Value = { Waits U.Key U.Value };

    ghost use Rattle.dice_jobs.specs.Courses.{IsParked, wanted};

    ghost view = { λ p. record
        { job = p.work.value.assignment; keys = wanted p.work.value.stand } };

    ghost invariant = { λ p. IsParked U.meaning U.Value.eq U.running p.work.value.assignment
        p.work.value.course p.work.value.stand };
}

impl<U: Universe> Parked<U> {
    /// What the job is for, with the batches that were answered before.
    pub fn assignment(&self) -> &Assignment<U>
        ensures { result.now ≡ self.now.job }
    {
        &self.work.assignment
    }

    /// The keys whose answers it waits for.
    pub fn batch(&self) -> &Batch<U::Key>
        ensures { result.now ≡ self.now.keys }
    {
        match &self.work.stand {
            Stand::Asks(batch) => batch,
            _ => unreachable!(),
        }
    }

    /// What the job will be for when the batch is answered, with a value for each of its keys. Keys
    /// and values are shared; it costs their number, over all batches.
    pub fn answered(&self, answers: &Answers<U::Value>) -> Result<Assignment<U>, NoMemory>
        requires { length answers.now ≡ length self.now.keys }
        ensures { IfOk result (λ a. a ≡ answered_more self.now.job self.now.keys answers.now) }
    {
        self.work.assignment.extended(self.batch(), answers)
    }

    /// The job that goes on with these answers, a value for each key; `next` is what it is for
    /// then. If `agreed` is set they are known to be those of the trace that is checked, and the
    /// check does not compare them. It takes no memory.
    pub fn resume(self, next: Assignment<U>, answers: Answers<U::Value>, agreed: bool) -> Job<U>
        requires answers { length answers ≡ length self.keys }
        requires next { next ≡ answered_more self.job self.keys answers }
        requires agreed { agreed ≡ true → Agrees next }
        ensures { result ≡ next }
    {
        let Parked { mut work } = self;
        go_on(&mut *work, next, answers, agreed);
        Job { work }
    }
}

/// A job that waits goes on with these answers, and is for `next` then. It takes no memory.
fn go_on<U: Universe>(
    work: &mut Work<U>,
    next: Assignment<U>,
    answers: Answers<U::Value>,
    agreed: bool,
)
    requires parked { IsParked U.meaning U.Value.eq U.running work.old.assignment work.old.course
        work.old.stand }
    requires answers { length answers ≡ length (wanted work.old.stand) }
    requires next { next ≡ answered_more work.old.assignment (wanted work.old.stand) answers }
    requires agreed { agreed ≡ true → Agrees next }
    ensures assignment { work.new.assignment ≡ next }
    ensures ready { IsReady U.meaning U.Value.eq U.running next work.new.course work.new.stand }
{
    work.stand = match &mut work.course {
        Course::Check(check) if agreed => {
            check.agree();
            Stand::Ready
        }
        _ => Stand::Answered(answers),
    };
    work.assignment = next;
}
