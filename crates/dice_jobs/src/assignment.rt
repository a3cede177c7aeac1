//! What a job is for.
ghost use Rattle.std.specs.Prelude.{◌≡◌, [], length, IfOk, IsTrue, ◌↔◌, Some};
ghost use Rattle.std.specs.Option.{option_copied};
ghost use Rattle.std.specs.Arc.{arc_value};
ghost use Rattle.dice_jobs.specs.Jobs.{answered_more, computing, Computes};
ghost use Rattle.dice_jobs.specs.Alike.{AreAlike, WorksAlike};
ghost use Rattle.dice_jobs.specs.Shapes.{answers_in, batches_in, work_in, work_of};

use crate::name::JobName;
use dep_recorder::Trace;
use dice_key::{Answers, Batch, NoMemory, Universe, ValueRef, Version, laws_of};
use std::alloc::Global;
use std::marker::Model;
use std::sync::Arc;

/// An earlier value of a key, its trace, and the greatest version at which it was finished or seen.
#[derive(Drop)]
pub struct Earlier<U: Universe> {
    pub value: ValueRef<U>,
    pub trace: Arc<Trace<U>>,
    pub base: Version,
}

/// What a job is for: its name, the batches that were answered so far, and what is done: the key's
/// value is computed, or an earlier one is checked.
///
/// A task keeps one while its job is out, and compares with it the step that comes back.
pub struct Assignment<U: Universe> {
    alloc: Global,
    name: JobName<U>,
    progress: Progress<U>,
}

/// What is done, and how far it has come. Copies of an assignment share it.
#[derive(Drop)]
pub(crate) enum Progress<U: Universe> {
    /// The key's value is computed, and nothing is answered yet.
    Begins,
    /// The key's value is computed, and these batches are answered.
    Runs(Arc<Trace<U>>),
    /// An earlier value is checked, and these batches are answered, if there are any.
    Checks(Arc<Earlier<U>>, Option<Arc<Trace<U>>>),
}

// (One function for all places that drop one: a derived drop is written out at each.)
impl<U: Universe> Drop for Assignment<U> {
    fn drop(self) {
        let Assignment {
            alloc: _,
            name: _name,
            progress: _progress,
        } = self;
    }
}

impl<U: Universe> Model for Assignment<U> {
    ghost use Rattle.dice_jobs.specs.Jobs.{Assigned};

    ghost Value = { Assigned U.Key U.Value };

    ghost use Rattle.dice_jobs.specs.Shapes.{answers_in, work_in};

    ghost view = { λ a. record
        { name = a.name; answered = answers_in a.progress; work = work_in a.progress } };
}

impl<U: Universe> Assignment<U> {
    /// The key's value is computed, and nothing is answered yet. It takes no memory.
    pub(crate) fn begins(alloc: Global, name: JobName<U>) -> Assignment<U>
        ensures { result ≡ record { name = name; answered = []; work = Computes } }
    {
        Assignment {
            alloc,
            name,
            progress: Progress::Begins,
        }
    }

    /// An earlier value is checked, and nothing is answered yet.
    pub(crate) fn checks(
        alloc: Global,
        name: JobName<U>,
        earlier: Earlier<U>,
    ) -> Result<Assignment<U>, NoMemory>
        ensures { IfOk result
            (λ a. a ≡ record { name = name; answered = []; work = work_of (Some earlier) }) }
    {
        let earlier = Arc::new(alloc, earlier)?;
        Ok(Assignment {
            alloc,
            name,
            progress: Progress::Checks(earlier, None),
        })
    }

    /// Where memory is taken from.
    pub(crate) fn alloc(&self) -> Global {
        self.alloc
    }

    /// The name of the job.
    pub fn name(&self) -> &JobName<U>
        ensures { result.now ≡ self.now.name }
    {
        &self.name
    }

    /// The name alone.
    pub(crate) fn into_name(self) -> JobName<U>
        ensures { result ≡ self.name }
    {
        let Assignment {
            alloc: _,
            name,
            progress: _progress,
        } = self;
        name
    }

    /// The earlier value that is checked; `None` if the value is computed.
    pub fn earlier(&self) -> Option<&Earlier<U>>
        ensures { work_of (option_copied result) ≡ self.now.work }
    {
        earlier_of(&self.progress)
    }

    /// The batches that were answered so far, as a trace. It is shared, not copied.
    pub fn answered(&self) -> Result<Arc<Trace<U>>, NoMemory>
        ensures { IfOk result (λ t. arc_value t ≡ self.now.answered) }
    {
        match answers_of(&self.progress) {
            Some(trace) => Ok(Arc::try_clone(trace)?),
            None => Ok(Arc::new(self.alloc, Trace::new(self.alloc))?),
        }
    }

    /// The answered batches, if there are any.
    pub(crate) fn batches(&self) -> Option<&Arc<Trace<U>>>
        ensures { batches_in (option_copied result) ≡ self.now.answered }
    {
        answers_of(&self.progress)
    }

    /// The same answered batches, from which the key's value is computed. They are shared, not
    /// copied.
    pub fn computing(&self) -> Result<Assignment<U>, NoMemory>
        ensures { IfOk result (λ a. a ≡ computing self.now) }
    {
        let name = self.name.try_clone()?;
        let progress = run_after(&self.progress)?;
        Ok(Assignment {
            alloc: self.alloc,
            name,
            progress,
        })
    }

    /// The same assignment again. All that it holds is shared, not copied.
    pub fn try_clone(&self) -> Result<Assignment<U>, NoMemory>
        ensures { IfOk result (λ a. a ≡ self.now) }
    {
        let name = self.name.try_clone()?;
        let progress = copied(&self.progress)?;
        Ok(Assignment {
            alloc: self.alloc,
            name,
            progress,
        })
    }

    /// The same assignment with one more batch answered, with a value for each of its keys. Keys
    /// and values are shared; it costs their number, over all batches.
    pub fn extended(
        &self,
        batch: &Batch<U::Key>,
        answers: &Answers<U::Value>,
    ) -> Result<Assignment<U>, NoMemory>
        requires { length answers.now ≡ length batch.now }
        ensures { IfOk result (λ a. a ≡ answered_more self.now batch.now answers.now) }
    {
        let trace = self.extended_trace(batch, answers)?;
        let answered = Arc::new(self.alloc, trace)?;
        let name = self.name.try_clone()?;
        let progress = with_answered(&self.progress, answered)?;
        Ok(Assignment {
            alloc: self.alloc,
            name,
            progress,
        })
    }

    /// The trace of the answered batches, with one more.
    fn extended_trace(
        &self,
        batch: &Batch<U::Key>,
        answers: &Answers<U::Value>,
    ) -> Result<Trace<U>, NoMemory>
        requires { length answers.now ≡ length batch.now }
        ensures { IfOk result (λ t. t ≡ (answered_more self.now batch.now answers.now).answered) }
    {
        match answers_of(&self.progress) {
            Some(trace) => trace.extended(self.alloc, batch, answers),
            None => Trace::new(self.alloc).extended(self.alloc, batch, answers),
        }
    }

    /// Whether the two are the same: their names, their answered batches, whether they compute or
    /// check, and of a check the value, its trace and its base. It takes no memory; it costs a
    /// comparison for each key and each value.
    pub fn is_same(&self, other: &Assignment<U>) -> bool
        ensures { IsTrue result ↔ (self.now ≡ other.now) }
    {
        self.name.is_same(&other.name)
            && are_same_batches(&self.progress, &other.progress)
            && are_same_work(&self.progress, &other.progress)
    }

    /// Whether the two have the same name, compute or check a value of the same base, and are
    /// answered equally many batches. It costs a comparison of their keys, and of no value.
    pub fn is_alike(&self, other: &Assignment<U>) -> bool
        ensures { IsTrue result ↔ AreAlike self.now other.now }
    {
        self.name.is_same(&other.name)
            && work_alike(&self.progress, &other.progress)
            && batch_count(&self.progress) == batch_count(&other.progress)
    }
}

/// The same work, with these answered batches.
fn with_answered<U: Universe>(
    progress: &Progress<U>,
    answered: Arc<Trace<U>>,
) -> Result<Progress<U>, NoMemory>
    ensures answers { IfOk result (λ p. answers_in p ≡ arc_value answered) }
    ensures work { IfOk result (λ p. work_in p ≡ work_in progress.now) }
{
    match progress {
        Progress::Checks(earlier, _) => {
            Ok(Progress::Checks(Arc::try_clone(earlier)?, Some(answered)))
        }
        _ => Ok(Progress::Runs(answered)),
    }
}

/// The same work and answered batches again, shared.
fn copied<U: Universe>(progress: &Progress<U>) -> Result<Progress<U>, NoMemory>
    ensures answers { IfOk result (λ p. answers_in p ≡ answers_in progress.now) }
    ensures work { IfOk result (λ p. work_in p ≡ work_in progress.now) }
{
    match progress {
        Progress::Begins => Ok(Progress::Begins),
        Progress::Runs(trace) => Ok(Progress::Runs(Arc::try_clone(trace)?)),
        Progress::Checks(earlier, answered) => {
            let answered = shared(answered)?;
            Ok(Progress::Checks(Arc::try_clone(earlier)?, answered))
        }
    }
}

/// The same answered batches again, shared, if there are any.
fn shared<U: Universe>(answered: &Option<Arc<Trace<U>>>) -> Result<Option<Arc<Trace<U>>>, NoMemory>
    ensures { IfOk result (λ t. batches_in t ≡ batches_in answered.now) }
{
    match answered {
        Some(trace) => Ok(Some(Arc::try_clone(trace)?)),
        None => Ok(None),
    }
}

/// The same answered batches, shared, from which the key's value is computed.
fn run_after<U: Universe>(progress: &Progress<U>) -> Result<Progress<U>, NoMemory>
    ensures answers { IfOk result (λ p. answers_in p ≡ answers_in progress.now) }
    ensures work { IfOk result (λ p. work_in p ≡ Computes) }
{
    match answers_of(progress) {
        Some(trace) => Ok(Progress::Runs(Arc::try_clone(trace)?)),
        None => Ok(Progress::Begins),
    }
}

/// The answered batches, if there are any.
fn answers_of<U: Universe>(progress: &Progress<U>) -> Option<&Arc<Trace<U>>>
    ensures { batches_in (option_copied result) ≡ answers_in progress.now }
{
    match progress {
        Progress::Begins => None,
        Progress::Runs(trace) => Some(trace),
        Progress::Checks(_, answered) => answered.as_ref(),
    }
}

/// How many batches are answered.
fn batch_count<U: Universe>(progress: &Progress<U>) -> usize
    ensures { result ≡ length (answers_in progress.now) }
{
    match answers_of(progress) {
        Some(trace) => trace.len(),
        None => 0,
    }
}

impl<U: Universe> Earlier<U> {
    /// The same value, trace and base again. They are shared, not copied.
    pub fn try_clone(&self) -> Result<Earlier<U>, NoMemory>
        ensures { IfOk result (λ e. work_of (Some e) ≡ work_of (Some self.now)) }
    {
        Ok(Earlier {
            value: Arc::try_clone(&self.value)?,
            trace: Arc::try_clone(&self.trace)?,
            base: self.base,
        })
    }
}

/// The earlier value that is checked, if one is.
fn earlier_of<U: Universe>(progress: &Progress<U>) -> Option<&Earlier<U>>
    ensures { work_of (option_copied result) ≡ work_in progress.now }
{
    match progress {
        Progress::Checks(earlier, _) => Some(&**earlier),
        _ => None,
    }
}

/// Whether the same batches have the same answers.
fn are_same_batches<U: Universe>(a: &Progress<U>, b: &Progress<U>) -> bool
    ensures { IsTrue result ↔ (answers_in a.now ≡ answers_in b.now) }
{
    match (answers_of(a), answers_of(b)) {
        (None, None) => true,
        (Some(one), None) | (None, Some(one)) => one.len() == 0,
        (Some(one), Some(other)) => one.is_same(other),
    }
}

/// Whether both compute, or both check a value of the same base.
fn work_alike<U: Universe>(a: &Progress<U>, b: &Progress<U>) -> bool
    ensures { IsTrue result ↔ WorksAlike (work_in a.now) (work_in b.now) }
{
    match (earlier_of(a), earlier_of(b)) {
        (None, None) => true,
        (Some(one), Some(other)) => one.base == other.base,
        (Some(_), None) | (None, Some(_)) => false,
    }
}

/// Whether both compute, or both check the same value with the same trace and base.
fn are_same_work<U: Universe>(a: &Progress<U>, b: &Progress<U>) -> bool
    ensures { IsTrue result ↔ (work_in a.now ≡ work_in b.now) }
{
    laws_of::<U>();
    match (earlier_of(a), earlier_of(b)) {
        (None, None) => true,
        (Some(one), Some(other)) => {
            one.base == other.base && *one.value == *other.value && one.trace.is_same(&other.trace)
        }
        _ => false,
    }
}
