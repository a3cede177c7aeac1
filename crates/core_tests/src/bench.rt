//! A core on any universe, with what its calls gave last.
use dice_core::{CommitRefusal, Core, Gave, Job, Step};
use dice_jobs::Assignment;
use dice_key::{KeyRef, NoMemory, Universe, ValueRef};
use std::alloc::Global;
use std::sync::Arc;

/// A call on the core, with the transaction, the ask, the job and the step that came last; and what
/// it answers, yes or no.
#[derive(Clone, Copy)]
pub(crate) enum Call {
    /// Yes.
    Open,
    /// Whether the transaction is open.
    Ask,
    /// Whether the ask stands.
    Leave,
    /// Whether the transaction is open.
    Close,
    /// Whether there is a job.
    Take,
    /// Whether the job is handed back.
    Back,
    /// Whether a job of the name that was taken last is out.
    Fail,
    /// Whether there is a job; it makes a step.
    Advance,
    /// Whether the step is stale and is handed back.
    Give,
    /// Whether there was a job. Jobs are taken, done and given, up to a number of them.
    Work,
}

/// What a commit answers.
#[derive(Clone, Copy, PartialEq)]
pub(crate) enum Outcome {
    Version(u64),
    NotInjected,
    Twice,
}

/// A core, the transaction, the ask, the job and the step that came last, and what that job is for.
pub(crate) struct Bench<U: Universe> {
    universe: Arc<U>,
    pub(crate) core: Core<U>,
    tx: u64,
    ask: u64,
    job: Option<Job<U>>,
    step: Option<Step<U>>,
    assignment: Option<Assignment<U>>,
}

// (One function for all places that drop one: a derived drop is written out at each.)
impl<U: Universe> Drop for Bench<U> {
    fn drop(self) {
        let Bench {
            universe: _universe,
            core: _core,
            tx: _,
            ask: _,
            job: _job,
            step: _step,
            assignment: _assignment,
        } = self;
    }
}

impl<U: Universe> Bench<U> {
    pub(crate) fn new(alloc: Global, universe: Arc<U>) -> Result<Bench<U>, NoMemory> {
        let core = Core::new(alloc, Arc::try_clone(&universe)?)?;
        Ok(Bench {
            universe,
            core,
            tx: 0,
            ask: 0,
            job: None,
            step: None,
            assignment: None,
        })
    }

    pub(crate) fn commit(
        &mut self,
        changes: &[(KeyRef<U>, ValueRef<U>)],
    ) -> Result<Outcome, NoMemory> {
        match self.core.commit(0, changes) {
            Ok(version) => Ok(Outcome::Version(version)),
            Err(CommitRefusal::NotInjected(_)) => Ok(Outcome::NotInjected),
            Err(CommitRefusal::Twice(_)) => Ok(Outcome::Twice),
            Err(CommitRefusal::NoMemory) => Err(NoMemory),
        }
    }

    fn open(&mut self) -> Result<bool, NoMemory> {
        self.tx = self.core.open(0)?;
        Ok(true)
    }

    pub(crate) fn ask(&mut self, key: KeyRef<U>) -> Result<bool, NoMemory> {
        if !self.core.is_open(self.tx) {
            return Ok(false);
        }
        self.ask = self.core.ask(0, self.tx, key)?;
        Ok(true)
    }

    fn leave(&mut self) -> bool {
        if !self.core.stands(self.ask) {
            return false;
        }
        self.core.leave(self.ask);
        true
    }

    fn close(&mut self) -> bool {
        if !self.core.is_open(self.tx) {
            return false;
        }
        self.core.close(self.tx);
        true
    }

    pub(crate) fn take(&mut self) -> Result<bool, NoMemory> {
        let Some(job) = self.core.take_job() else {
            return Ok(false);
        };
        self.assignment = Some(job.assignment().try_clone()?);
        self.job = Some(job);
        Ok(true)
    }

    fn back(&mut self) -> bool {
        let Some(job) = self.job.take() else {
            return false;
        };
        self.job = self.core.back(job);
        self.job.is_some()
    }

    pub(crate) fn fail(&mut self) -> bool {
        match &self.assignment {
            Some(assignment) => self.core.fail(assignment.name()),
            None => false,
        }
    }

    fn advance(&mut self) -> Result<bool, NoMemory> {
        let Some(job) = self.job.take() else {
            return Ok(false);
        };
        let Ok(step) = job.advance(&*self.universe) else {
            return Err(NoMemory);
        };
        self.step = Some(step);
        Ok(true)
    }

    /// Whether the step is that of the job which was taken last.
    fn is_of_last(&self, step: &Step<U>) -> bool {
        match &self.assignment {
            Some(assignment) => step.is_of(assignment),
            None => false,
        }
    }

    fn give(&mut self) -> Result<bool, NoMemory> {
        let Some(step) = self.step.take() else {
            return Ok(false);
        };
        match self.core.give(step) {
            Ok(Gave::Taken) => Ok(false),
            Ok(Gave::Stale(step)) => Ok(self.is_of_last(&step)),
            Err(_) => Err(NoMemory),
        }
    }

    /// Takes a job, does it and gives its step; whether there was one.
    fn do_one(&mut self) -> Result<bool, NoMemory> {
        if !self.take()? {
            return Ok(false);
        }
        self.advance()?;
        self.give()?;
        Ok(true)
    }

    /// Does jobs one after another, at most so many; how many there were.
    pub(crate) fn work(&mut self, most: usize) -> Result<usize, NoMemory> {
        for done in 0..most {
            if !self.do_one()? {
                return Ok(done);
            }
        }
        Ok(most)
    }

    /// Carries out a call on transactions and asks; `false` for one on jobs.
    fn call_for(&mut self, call: Call, key: KeyRef<U>) -> Result<bool, NoMemory> {
        match call {
            Call::Open => self.open(),
            Call::Ask => self.ask(key),
            Call::Leave => Ok(self.leave()),
            Call::Close => Ok(self.close()),
            _ => Ok(false),
        }
    }

    /// Carries out a call; an ask is for this key.
    pub(crate) fn carry_out(&mut self, call: Call, key: KeyRef<U>) -> Result<bool, NoMemory> {
        match call {
            Call::Take => self.take(),
            Call::Back => Ok(self.back()),
            Call::Fail => Ok(self.fail()),
            Call::Advance => self.advance(),
            Call::Give => self.give(),
            Call::Work => Ok(self.work(20)? > 0),
            _ => self.call_for(call, key),
        }
    }

    /// How many tasks are ready, and how many jobs are out.
    pub(crate) fn counts(&self) -> (u64, u64) {
        (self.core.ready(), self.core.out())
    }
}
