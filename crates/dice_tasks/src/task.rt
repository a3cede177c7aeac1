//! Tasks.
ghost use Rattle.std.specs.Prelude.{◌≡◌, ◌≢◌, ◌↔◌, [], true, false, length, List, ℕ, IfOk, IfSome, IfNone, Some, None, IsTrue};
ghost use Rattle.std.specs.Arc.{arc_value};
ghost use Rattle.std.specs.Option.{option_map};
ghost use Rattle.dice_key.specs.declared.universe.Kind.TheVariants.{Injected};
ghost use Rattle.dice_key.specs.Meaning.{Answered};
ghost use Rattle.dice_jobs.specs.Jobs.{Assigned, Waits, Computes, Agrees, answered_more, checking};
ghost use Rattle.dice_jobs.specs.Alike.{AreAlike};
ghost use Rattle.dice_jobs.specs.Shapes.{work_of};
ghost use Rattle.core_laws.specs.Tasks.{Phase, IsReady, IsOut, IsWaiting, Ended, WithValue, WithNothing, goes_on, waits_for, value_in};
ghost use Rattle.core_laws.specs.Desk.{ready_in, out_in};
ghost use Rattle.dice_tasks.specs.Helds.{came, held_of, held_ended, FollowsOn};
ghost use Rattle.dice_tasks.specs.CyclePaths.{path_in};
ghost use Rattle.dice_tasks.specs.Loads.{AreCopies};

use dice_jobs::{Assignment, Earlier, Job, JobName, Parked, Step};
use dice_key::{Answers, Batch, KeyRef, NoMemory, Path, Universe, ValueRef};
use std::alloc::Global;
use std::marker::Model;
use std::mem;
use std::sync::Arc;
use task_state::{Outcome, Stage, TaskState};

/// How far the work of a task is.
#[derive(Drop)]
enum Load<U: Universe> {
    /// The job can be taken.
    Job(Job<U>),
    /// The job was taken.
    Away,
    /// The job waits for answers.
    Parked(Parked<U>),
}

/// Two copies of a task's key, for the events that end it: so ending it takes no memory.
#[derive(Drop)]
pub(crate) struct Spare<U: Universe> {
    pub(crate) first: KeyRef<U>,
    pub(crate) second: KeyRef<U>,
}

/// What a waiting task goes on with when its batch is answered, made ahead: what its job is for
/// then, twice, and the answers; and whether these are known to be those of the trace that it
/// checks.
pub struct Next<U: Universe> {
    own: Assignment<U>,
    job: Assignment<U>,
    answers: Answers<U::Value>,
    agreed: bool,
}

// (One function for all places that drop one: a derived drop is written out at each.)
impl<U: Universe> Drop for Next<U> {
    fn drop(self) {
        let Next {
            own: _own,
            job: _job,
            answers: _answers,
            agreed: _,
        } = self;
    }
}

impl<U: Universe> Model for Next<U> {
    ghost use Rattle.std.specs.Prelude.{◌≡◌};
    ghost use Rattle.dice_tasks.specs.Helds.{Ahead};

    ghost Value = { Ahead U.Key U.Value };

    ghost view = { λ n. record { job = n.job; values = n.answers } };

    ghost use Rattle.std.specs.Prelude.{true};
    ghost use Rattle.dice_jobs.specs.Jobs.{Agrees};

    ghost invariant = { λ n. (n.own ≡ n.job) × (n.agreed ≡ true → Agrees n.job) };
}

impl<U: Universe> Next<U> {
    /// What a parked job goes on with when its batch has these answers, a value for each key.
    /// `agreed` says that they are known to be those of the trace that is checked.
    pub(crate) fn of(
        parked: &Parked<U>,
        answers: Answers<U::Value>,
        agreed: bool,
    ) -> Result<Next<U>, NoMemory>
        requires count { length answers ≡ length parked.now.keys }
        requires agreed { agreed ≡ true
            → Agrees (answered_more parked.now.job parked.now.keys answers) }
        ensures { IfOk result (λ n. n
            ≡ record
            { job = answered_more parked.now.job parked.now.keys answers; values = answers }) }
    {
        let job = parked.answered(&answers)?;
        let own = job.try_clone()?;
        Ok(Next {
            own,
            job,
            answers,
            agreed,
        })
    }

    /// What a job goes on with when the batch that it asks has these answers, a value for each key.
    /// `agreed` says that they are known to be those of the trace that is checked.
    pub fn of_batch(
        assignment: &Assignment<U>,
        batch: &Batch<U::Key>,
        answers: Answers<U::Value>,
        agreed: bool,
    ) -> Result<Next<U>, NoMemory>
        requires count { length answers ≡ length batch.now }
        requires agreed { agreed ≡ true → Agrees (answered_more assignment.now batch.now answers) }
        ensures { IfOk result (λ n. n
            ≡ record { job = answered_more assignment.now batch.now answers; values = answers }) }
    {
        let job = assignment.extended(batch, &answers)?;
        let own = job.try_clone()?;
        Ok(Next {
            own,
            job,
            answers,
            agreed,
        })
    }

    /// The job that goes on, and what the task keeps of it. It takes no memory.
    fn of_parked(self, parked: Parked<U>) -> (Job<U>, Assignment<U>)
        requires count { length self.values ≡ length parked.keys }
        requires job { self.job ≡ answered_more parked.job parked.keys self.values }
        ensures { (result.0 ≡ self.job) × (result.1 ≡ self.job) }
    {
        let Next {
            own,
            job,
            answers,
            agreed,
        } = self;
        (parked.resume(job, answers, agreed), own)
    }
}

/// A task: the work for one key at one version.
pub struct Task<U: Universe> {
    name: JobName<U>,
    kept: Kept<U>,
}

/// What a task keeps: its work, or how it ended.
#[derive(Drop)]
enum Kept<U: Universe> {
    Works(Box<Work<U>>),
    Ended(Outcome<U::Key, U::Value>),
}

/// What a task keeps as long as it has not ended: its state, what its job is for, how far the work
/// is, and what is needed to end it.
struct Work<U: Universe> {
    state: TaskState<U::Key, U::Value>,
    own: Assignment<U>,
    load: Load<U>,
    spare: Spare<U>,
}

// (One function for all places that drop one: a derived drop is written out at each.)
impl<U: Universe> Drop for Work<U> {
    fn drop(self) {
        let Work {
            state: _state,
            own: _own,
            load: _load,
            spare: _spare,
        } = self;
    }
}

impl<U: Universe> Work<U> {
    /// The copies of the task's key. All else is dropped.
    fn into_spare(self) -> Spare<U>
        ensures { result ≡ self.spare }
    {
        let Work {
            state: _state,
            own: _own,
            load: _load,
            spare,
        } = self;
        spare
    }
}

impl<U: Universe> Drop for Task<U> {
    fn drop(self) {
        let Task {
            name: _name,
            kept: _kept,
        } = self;
    }
}

/// Puts a value in place of another, which is dropped: by one call, and not by what an assignment
/// writes out at each place.
fn put<T: Drop>(place: &mut T, value: T)
    ensures { place.new ≡ value }
{
    *place = value;
}

impl<U: Universe> Model for Task<U> {
    ghost use Rattle.dice_tasks.specs.Helds.{Held};

    ghost Value = { Held U.Key U.Value };

    ghost use Rattle.dice_tasks.specs.Loads.{standing_of, IsKept};

    ghost view = { λ t. record { name = t.name; standing = standing_of t.kept } };

    ghost invariant = { λ t. IsKept t.name t.kept };
}

impl<U: Universe> Task<U> {
    /// A task that computes its key's value, ready to be taken.
    pub(crate) fn run(alloc: Global, name: JobName<U>, spare: Spare<U>) -> Result<Task<U>, NoMemory>
        requires kind { U.meaning.kind name.key ≢ Injected }
        requires spare { AreCopies name.key spare }
        ensures { IfOk result
            (λ t. t ≡ held_of (record { name = name; answered = []; work = Computes }) IsReady) }
    {
        let job = Job::begin(alloc, name.try_clone()?)?;
        let own = job.assignment().try_clone()?;
        let work = Work {
            state: TaskState::Computing(Stage::Ready),
            own,
            load: Load::Job(job),
            spare,
        };
        let kept = Kept::Works(Box::new(alloc, work)?);
        Ok(Task { name, kept })
    }

    /// A task that checks an earlier value of its key, ready to be taken.
    pub(crate) fn check(
        alloc: Global,
        name: JobName<U>,
        spare: Spare<U>,
        earlier: Earlier<U>,
    ) -> Result<Task<U>, NoMemory>
        requires { AreCopies name.key spare }
        ensures { IfOk result (λ t. t
            ≡ held_of (record { name = name; answered = []; work = work_of (Some earlier) })
            IsReady) }
    {
        let job = Job::check(alloc, name.try_clone()?, earlier)?;
        let own = job.assignment().try_clone()?;
        let work = Work {
            state: TaskState::Checking(Stage::Ready),
            own,
            load: Load::Job(job),
            spare,
        };
        let kept = Kept::Works(Box::new(alloc, work)?);
        Ok(Task { name, kept })
    }

    /// A task that has ended with a value that was looked up. It takes no memory.
    pub(crate) fn matched(name: JobName<U>, value: ValueRef<U>) -> Task<U>
        ensures { result ≡ held_ended name (WithValue (arc_value value)) }
    {
        let kept = Kept::Ended(Outcome::Value(value));
        Task { name, kept }
    }

    /// Takes the job of a ready task: it goes out. `None` if the task is not ready.
    pub(crate) fn take(&mut self) -> Option<Job<U>>
        ensures some { IfSome result
            (λ j. (self.old ≡ held_of j IsReady) × (self.new ≡ held_of j IsOut)) }
        ensures none { IfNone result
            ((self.new ≡ self.old) × (ready_in self.old.standing ≡ false)) }
    {
        let Kept::Works(work) = &mut self.kept else {
            return None;
        };
        match mem::replace(&mut work.load, Load::Away) {
            Load::Job(job) => {
                work.state.taken();
                Some(job)
            }
            other => {
                put(&mut work.load, other);
                None
            }
        }
    }

    /// Whether this job of the task is out.
    fn is_away(&self, job: &Assignment<U>) -> bool
        ensures { IsTrue result ↔ (self.now ≡ held_of job.now IsOut) }
    {
        match &self.kept {
            Kept::Works(work) => match &work.load {
                Load::Away => job.is_same(&work.own),
                _ => false,
            },
            Kept::Ended(_) => false,
        }
    }

    /// Takes back the job that is out, undone: the task is ready again. Another job is handed back.
    /// It takes no memory.
    pub(crate) fn back(&mut self, job: Job<U>) -> Option<Job<U>>
        ensures some { IfSome result
            (λ j. (j ≡ job) × (self.new ≡ self.old) × (self.old ≡ held_of job IsOut → ⊥)) }
        ensures none { IfNone result
            ((self.old ≡ held_of job IsOut) × (self.new ≡ held_of job IsReady)) }
    {
        if !self.is_away(job.assignment()) {
            return Some(job);
        }
        let Kept::Works(work) = &mut self.kept else {
            return Some(job);
        };
        work.state.back();
        put(&mut work.load, Load::Job(job));
        None
    }

    /// Whether it is a step of the job that is out.
    pub fn is_of(&self, step: &Step<U>) -> bool
        ensures { IsTrue result ↔ (self.now ≡ held_of step.now.job IsOut) }
    {
        self.is_away(step.assignment())
    }

    /// Whether the job that is out is like the step's: of its name and work, and equally far.
    pub fn is_like(&self, step: &Step<U>) -> bool
        ensures { IsTrue result
            ↔ ((j : Assigned U.Key U.Value) × (self.now ≡ held_of j IsOut)
            × AreAlike step.now.job j) }
    {
        match &self.kept {
            Kept::Works(work) => match &work.load {
                Load::Away => step.is_like(&work.own),
                _ => false,
            },
            Kept::Ended(_) => false,
        }
    }

    /// The job that was out waits for answers. It takes no memory.
    pub(crate) fn park(&mut self, parked: Parked<U>)
        requires { self.old ≡ held_of parked.job IsOut }
        ensures { self.new ≡ held_of parked.job (IsWaiting parked.keys) }
    {
        if let Kept::Works(work) = &mut self.kept {
            work.state.given(false);
            put(&mut work.load, Load::Parked(parked));
        }
    }

    /// What a waiting task goes on with when its batch has these answers, a value for each key.
    /// `agreed` says that they are known to be those of the trace that is checked. It costs the
    /// number of keys and values, over all batches.
    pub fn next(&self, answers: Answers<U::Value>, agreed: bool) -> Result<Next<U>, NoMemory>
        requires { (w : Waits U.Key U.Value) × (self.now ≡ held_of w.job (IsWaiting w.keys))
            × (length answers ≡ length w.keys)
            × (agreed ≡ true → Agrees (answered_more w.job w.keys answers)) }
        ensures { IfOk result (λ n. FollowsOn self.now n × (n.values ≡ answers)) }
    {
        match &self.kept {
            Kept::Works(work) => match &work.load {
                Load::Parked(parked) => Next::of(parked, answers, agreed),
                _ => unreachable!(),
            },
            Kept::Ended(_) => unreachable!(),
        }
    }

    /// The batch of a waiting task is answered: it is ready again. It takes no memory.
    pub fn resume(&mut self, next: Next<U>)
        requires { FollowsOn self.old next }
        ensures { self.new ≡ held_of next.job IsReady }
    {
        let Kept::Works(work) = &mut self.kept else {
            return;
        };
        if let Load::Parked(parked) = mem::replace(&mut work.load, Load::Away) {
            let (job, own) = next.of_parked(parked);
            work.state.answered();
            put(&mut work.own, own);
            put(&mut work.load, Load::Job(job));
        }
    }

    /// The job that was out asked a batch that is answered already: the task is ready again. It
    /// takes no memory.
    pub(crate) fn go_on(&mut self, parked: Parked<U>, next: Next<U>)
        requires out { self.old ≡ held_of parked.job IsOut }
        requires count { length next.values ≡ length parked.keys }
        requires next { next.job ≡ answered_more parked.job parked.keys next.values }
        ensures { self.new ≡ held_of next.job IsReady }
    {
        if let Kept::Works(work) = &mut self.kept {
            let (job, own) = next.of_parked(parked);
            work.state.given(true);
            put(&mut work.own, own);
            put(&mut work.load, Load::Job(job));
        }
    }

    /// The check that was out found a difference: the key's value is computed, from the answers
    /// that the check has. It takes no memory.
    pub(crate) fn begin_anew(&mut self, job: Job<U>, own: Assignment<U>)
        requires check { (x : U.Value) × (T : List (Answered U.Key U.Value)) × (b : ℕ)
            × (self.old ≡ held_of (checking job x T b) IsOut) }
        requires own { own ≡ job }
        requires job { job.work ≡ Computes }
        ensures { self.new ≡ held_of job IsReady }
    {
        if let Kept::Works(work) = &mut self.kept {
            work.state.differs();
            put(&mut work.own, own);
            put(&mut work.load, Load::Job(job));
        }
    }

    /// Ends the task, and hands out the copies of its key. It takes no memory.
    pub(crate) fn end(&mut self, outcome: Outcome<U::Key, U::Value>) -> Option<Spare<U>>
        requires { goes_on self.old.standing ≡ true }
        ensures ended { self.new ≡ held_ended self.old.name (came outcome) }
        ensures spare { IfSome result (AreCopies self.old.name.key) }
        ensures some { IfNone result ⊥ }
    {
        match mem::replace(&mut self.kept, Kept::Ended(outcome)) {
            Kept::Works(work) => Some(Box::into_inner(work).into_spare()),
            Kept::Ended(_) => None,
        }
    }

    /// The name.
    pub fn name(&self) -> &JobName<U>
        ensures { result.now ≡ self.now.name }
    {
        &self.name
    }

    /// What the task's job is for; `None` if it has ended.
    pub fn assignment(&self) -> Option<&Assignment<U>>
        ensures some { IfSome result (λ a. (p : Phase U.Key) × (self.now ≡ held_of a.now p)) }
        ensures none { IfNone result (goes_on self.now.standing ≡ false) }
    {
        match &self.kept {
            Kept::Works(work) => Some(&work.own),
            Kept::Ended(_) => None,
        }
    }

    /// The batch that the task waits for, if it waits.
    pub fn batch(&self) -> Option<&Batch<U::Key>>
        ensures { option_map (λ b. b.now) result ≡ waits_for self.now.standing }
    {
        match &self.kept {
            Kept::Works(work) => match &work.load {
                Load::Parked(parked) => Some(parked.batch()),
                _ => None,
            },
            Kept::Ended(_) => None,
        }
    }

    /// How the task ended, if it has.
    pub fn outcome(&self) -> Option<&Outcome<U::Key, U::Value>>
        ensures some { IfSome result (λ o. self.now.standing ≡ Ended (came o.now)) }
        ensures none { IfNone result (goes_on self.now.standing ≡ true) }
    {
        match &self.kept {
            Kept::Works(_) => None,
            Kept::Ended(outcome) => Some(outcome),
        }
    }

    /// The value that the task ended with, if any.
    pub fn value(&self) -> Option<&ValueRef<U>>
        ensures { option_map (λ x. arc_value x.now) result ≡ value_in self.now.standing }
    {
        match self.outcome() {
            Some(Outcome::Value(value)) => Some(value),
            _ => None,
        }
    }

    /// The cycle that the task ended with, if any.
    pub fn cycle(&self) -> Option<&Arc<Path<U::Key>>>
        ensures { option_map (λ p. arc_value p.now) result ≡ path_in self.now.standing }
    {
        match self.outcome() {
            Some(Outcome::Cycle(path)) => Some(path),
            _ => None,
        }
    }

    /// Whether the task was given up since no memory was left.
    pub(crate) fn is_lost(&self) -> bool
        ensures { IsTrue result ↔ (self.now.standing ≡ Ended WithNothing) }
    {
        matches!(self.outcome(), Some(Outcome::Lost))
    }

    /// Whether the task has not ended.
    pub fn is_live(&self) -> bool
        ensures { result ≡ goes_on self.now.standing }
    {
        matches!(&self.kept, Kept::Works(_))
    }

    /// Whether its job can be taken.
    pub(crate) fn is_ready(&self) -> bool
        ensures { result ≡ ready_in self.now.standing }
    {
        match &self.kept {
            Kept::Works(work) => matches!(&work.load, Load::Job(_)),
            Kept::Ended(_) => false,
        }
    }

    /// Whether its job is out.
    pub fn is_out(&self) -> bool
        ensures { result ≡ out_in self.now.standing }
    {
        match &self.kept {
            Kept::Works(work) => matches!(&work.load, Load::Away),
            Kept::Ended(_) => false,
        }
    }
}
