//! Jobs.
ghost use Rattle.std.specs.Prelude.{◌≡◌, ◌≢◌, [], length, IfOk, IfErr, OnOk, Some};
ghost use Rattle.dice_key.specs.declared.universe.Kind.TheVariants.{Injected};
ghost use Rattle.dice_key.specs.Meaning.{Running, next_of};
ghost use Rattle.dice_key.specs.Lawful.{IsStep};
ghost use Rattle.dep_recorder.specs.Recordings.{values_in};
ghost use Rattle.dice_jobs.specs.Jobs.{Computes, AsksThese, IsStepOf, stand_of};
ghost use Rattle.dice_jobs.specs.Shapes.{work_of};
ghost use Rattle.dice_jobs.specs.Courses.{IsReady, IsEnding, RunEnds, CheckEnds};

use crate::assignment::{Assignment, Earlier};
use crate::name::JobName;
use crate::step::Step;
use crate::work::{Course, Stand, Work};
use dep_recorder::{Check, Next, copied_keys};
use dice_key::{Answers, Move, NoMemory, Universe, laws_of};
use std::alloc::Global;
use std::marker::Model;
use std::mem;
use std::sync::Arc;

/// A piece of work for a key at a version that is done outside the core: one step of a run, or of a
/// check of an earlier value.
///
/// It says what it is for; what comes of it is a function of that, and [`Job::advance`] finds it.
pub struct Job<U: Universe> {
    pub(crate) work: Box<Work<U>>,
}

// (One function for all places that drop one: a derived drop is written out at each.)
impl<U: Universe> Drop for Job<U> {
    fn drop(self) {
        let Job { work: _work } = self;
    }
}

impl<U: Universe> Model for Job<U> {
    ghost use Rattle.dice_jobs.specs.Jobs.{Assigned};

    ghost Value = { Assigned U.Key U.Value };

    ghost use Rattle.dice_jobs.specs.Courses.{IsReady};

    ghost view = { λ j. j.work.value.assignment };

    ghost invariant = { λ j. IsReady U.meaning U.Value.eq U.running j.work.value.assignment
        j.work.value.course j.work.value.stand };
}

impl<U: Universe> Job<U> {
    /// A run of a key that is not injected, which has asked nothing yet.
    pub fn begin(alloc: Global, name: JobName<U>) -> Result<Job<U>, NoMemory>
        requires { U.meaning.kind name.key ≢ Injected }
        ensures { IfOk result (λ j. j ≡ record { name = name; answered = []; work = Computes }) }
    {
        let work = Work::ready(alloc, Assignment::begins(alloc, name), Course::Idle)?;
        Ok(Job { work })
    }

    /// A check of an earlier value, which was fed nothing yet.
    pub fn check(alloc: Global, name: JobName<U>, earlier: Earlier<U>) -> Result<Job<U>, NoMemory>
        ensures { IfOk result
            (λ j. j ≡ record { name = name; answered = []; work = work_of (Some earlier) }) }
    {
        let check = Check::new(Arc::try_clone(&earlier.trace)?);
        let assignment = Assignment::checks(alloc, name, earlier)?;
        let work = Work::ready(alloc, assignment, Course::Check(check))?;
        Ok(Job { work })
    }

    /// What the job is for.
    pub fn assignment(&self) -> &Assignment<U>
        ensures { result.now ≡ self.now }
    {
        &self.work.assignment
    }

    /// The name of the job.
    pub fn name(&self) -> &JobName<U>
        ensures { result.now ≡ self.now.name }
    {
        self.work.assignment.name()
    }

    /// Does the work, up to the next batch that is wanted or to the end. If memory is refused the
    /// job is given up, and its name is handed back.
    ///
    /// It costs what the universe's move costs, or, for a check, a comparison of each answer.
    pub fn advance(self, universe: &U) -> Result<Step<U>, JobName<U>>
        ensures step { IfOk result (λ s. IsStepOf U.meaning U.Value.eq s self) }
        ensures refused { IfErr result (λ n. n ≡ self.name) }
    {
        let Job { mut work } = self;
        match step_on(universe, &mut *work) {
            Ok(()) => Ok(Step { work }),
            Err(NoMemory) => Err(Box::into_inner(work).into_name()),
        }
    }
}

/// Does the next step of a job that is ready. If memory is refused, what it is for is left.
fn step_on<U: Universe>(universe: &U, work: &mut Work<U>) -> Result<(), NoMemory>
    requires { IsReady U.meaning U.Value.eq U.running work.old.assignment work.old.course
        work.old.stand }
    ensures assignment { work.new.assignment ≡ work.old.assignment }
    ensures ends { OnOk result (IsEnding U.meaning U.Value.eq U.running work.new.assignment
        work.new.course work.new.stand) }
{
    let stand = mem::replace(&mut work.stand, Stand::Ready);
    work.stand = stand_after(universe, &work.assignment, &mut work.course, stand)?;
    Ok(())
}

/// Where a job that stands so, and is ready, stands after its next step.
fn stand_after<U: Universe>(
    universe: &U,
    assignment: &Assignment<U>,
    course: &mut Course<U>,
    stand: Stand<U>,
) -> Result<Stand<U>, NoMemory>
    requires { IsReady U.meaning U.Value.eq U.running assignment.now course.old stand }
    ensures { IfOk result
        (λ s. IsEnding U.meaning U.Value.eq U.running assignment.now course.new s) }
{
    match stand {
        Stand::Answered(answers) => match course {
            Course::Idle => unreachable!(),
            Course::Run(run) => Ok(moved(universe.resume(run, &answers)?)),
            Course::Check(check) => {
                check.feed(answers);
                checked(assignment.alloc(), check)
            }
        },
        _ => match course {
            Course::Idle => begin_run(universe, assignment, course),
            Course::Run(_) => unreachable!(),
            Course::Check(check) => checked(assignment.alloc(), check),
        },
    }
}

/// The next move of a run that begins, and goes through the batches that are answered.
fn begin_run<U: Universe>(
    universe: &U,
    assignment: &Assignment<U>,
    course: &mut Course<U>,
) -> Result<Stand<U>, NoMemory>
    requires work { assignment.now.work ≡ Computes }
    requires kind { U.meaning.kind assignment.now.name.key ≢ Injected }
    requires asks { AsksThese U.meaning assignment.now.name.key assignment.now.name.version
        assignment.now.answered }
    ensures { IfOk result
        (λ s. IsEnding U.meaning U.Value.eq U.running assignment.now course.new s) }
{
    let (run, step) = begun(universe, assignment)?;
    *course = Course::Run(run);
    Ok(moved(step))
}

/// Where a run stands after this move.
fn moved<U: Universe>(step: Move<U::Key, U::Value>) -> Stand<U>
    ensures { (p : Running U.Key U.Value) → IsStep step (next_of U.meaning p)
        → RunEnds U.meaning p result }
{
    match step {
        Move::Ask(batch) => Stand::Asks(batch),
        Move::Done(value) => Stand::Done(value),
    }
}

/// A run, and its move after the batches that were answered so far: it begins, and goes through
/// them.
fn begun<U: Universe>(
    universe: &U,
    assignment: &Assignment<U>,
) -> Result<(U::Run, Move<U::Key, U::Value>), NoMemory>
    requires kind { U.meaning.kind assignment.now.name.key ≢ Injected }
    requires asks { AsksThese U.meaning assignment.now.name.key assignment.now.name.version
        assignment.now.answered }
    ensures run { IfOk result (λ r. U.running r.0 ≡ stand_of assignment.now) }
    ensures step { IfOk result (λ r. IsStep r.1 (next_of U.meaning (stand_of assignment.now))) }
{
    let name = assignment.name();
    let (mut run, mut step) = universe.begin(name.key(), name.version())?;
    if let Some(trace) = assignment.batches() {
        for at in 0..trace.len() {
            let answers = copied_values(assignment.alloc(), trace.batch(at))?;
            step = universe.resume(&mut run, &answers)?;
        }
    }
    Ok((run, step))
}

/// The answers of a batch. They are shared, not copied.
fn copied_values<K, V: Drop>(
    alloc: Global,
    pairs: &[(Arc<K>, Arc<V>)],
) -> Result<Answers<V>, NoMemory>
    ensures { IfOk result (λ a. a ≡ values_in pairs.now) }
{
    let mut values = Answers::with_room(alloc, pairs.len())?;
    for (_, value) in pairs {
        values.push(Arc::try_clone(value)?)?;
    }
    Ok(values)
}

/// What a check finds.
fn checked<U: Universe>(alloc: Global, check: &Check<U>) -> Result<Stand<U>, NoMemory>
    ensures { IfOk result (λ s. CheckEnds U.Value.eq check.now s) }
{
    match check.next() {
        Next::Want(wanted) => Ok(Stand::Asks(copied_keys(alloc, wanted)?)),
        Next::Same => Ok(Stand::Same),
        Next::Differs { dep, .. } => Ok(Stand::Differs(Arc::try_clone(dep)?)),
    }
}
