//! What jobs, steps and parked jobs keep.
ghost use Rattle.std.specs.Prelude.{◌≡◌, IfOk};
ghost use Rattle.dice_jobs.specs.declared.work.Stand.TheVariants as stand;

use crate::assignment::Assignment;
use crate::name::JobName;
use dep_recorder::Check;
use dice_key::{Answers, Batch, KeyRef, NoMemory, Universe, ValueRef};
use std::alloc::Global;

/// A job: what it is for, what goes on from step to step, and where it stands. It lies in one box
/// from its beginning to its end.
pub(crate) struct Work<U: Universe> {
    pub(crate) assignment: Assignment<U>,
    pub(crate) course: Course<U>,
    pub(crate) stand: Stand<U>,
}

/// What goes on from step to step: a run, or a check.
#[derive(Drop)]
pub(crate) enum Course<U: Universe> {
    /// Nothing: a run has not begun, or is done.
    Idle,
    Run(U::Run),
    Check(Check<U>),
}

/// Where a job stands.
#[derive(Drop)]
pub(crate) enum Stand<U: Universe> {
    /// It begins, or a check goes on after answers that are known to be those of its trace.
    Ready,
    /// It goes on with the answers to the batch that it last asked.
    Answered(Answers<U::Value>),
    /// It wants the answers to this batch.
    Asks(Batch<U::Key>),
    /// The run has come to this value.
    Done(ValueRef<U>),
    /// The check found all answers as they were.
    Same,
    /// The check found that the answer to this key has changed.
    Differs(KeyRef<U>),
}

// (One function for all places that drop one: a derived drop is written out at each.)
impl<U: Universe> Drop for Work<U> {
    fn drop(self) {
        let Work {
            assignment: _assignment,
            course: _course,
            stand: _stand,
        } = self;
    }
}

impl<U: Universe> Work<U> {
    /// A job that is ready, with nothing to be fed.
    pub(crate) fn ready(
        alloc: Global,
        assignment: Assignment<U>,
        course: Course<U>,
    ) -> Result<Box<Work<U>>, NoMemory>
        ensures assignment { IfOk result (λ w. w.value.assignment ≡ assignment) }
        ensures course { IfOk result (λ w. w.value.course ≡ course) }
        ensures stand { IfOk result (λ w. w.value.stand ≡ stand.Ready) }
    {
        let work = Work {
            assignment,
            course,
            stand: Stand::Ready,
        };
        Ok(Box::new(alloc, work)?)
    }

    /// The name alone.
    pub(crate) fn into_name(self) -> JobName<U>
        ensures { result ≡ self.assignment.name }
    {
        let Work {
            assignment,
            course: _course,
            stand: _stand,
        } = self;
        assignment.into_name()
    }
}
