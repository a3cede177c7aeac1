//! The states of a task.
ghost use Rattle.std.specs.Prelude.{◌≡◌, Some, if◌then◌else◌};
ghost use Rattle.task_state.specs.States.{stage_of, with_stage, need_of};

use dice_key::Path;
use std::sync::Arc;

/// How far the work on a task's batch is.
#[derive(Clone, Copy, Debug, PartialEq, Eq)]
pub enum Stage {
    /// It can be taken.
    Ready,
    /// It was taken, and is to be brought back.
    Out,
    /// It waits for answers to its batch.
    Waiting,
}

/// How a task ended.
#[derive(Drop)]
pub enum Outcome<K: Drop, V: Drop> {
    /// Its key has this value.
    Value(Arc<V>),
    /// Its key reaches this cycle.
    Cycle(Arc<Path<K>>),
    /// It was given up since no memory was left.
    Lost,
}

/// Where a task stands.
#[derive(Drop)]
pub enum TaskState<K: Drop, V: Drop> {
    /// The recorded dependencies of an earlier value are checked.
    Checking(Stage),
    /// The value is computed.
    Computing(Stage),
    /// It has ended.
    Ended(Outcome<K, V>),
}

/// What a task needs next.
#[derive(Clone, Copy, Debug, PartialEq, Eq)]
pub enum Need {
    /// That someone takes it.
    Take,
    /// That who took it brings it back.
    Return,
    /// That its batch is answered.
    Answers,
    /// Nothing: it has ended.
    Nothing,
}

impl<K: Drop, V: Drop> TaskState<K, V> {
    /// What the task needs next: to be taken if it is ready, to be brought back if it is out,
    /// answers if it waits, and nothing if it has ended.
    pub fn poll_step(&self) -> Need
        ensures { result ≡ need_of self.now }
    {
        match self {
            TaskState::Checking(stage) | TaskState::Computing(stage) => match stage {
                Stage::Ready => Need::Take,
                Stage::Out => Need::Return,
                Stage::Waiting => Need::Answers,
            },
            TaskState::Ended(_) => Need::Nothing,
        }
    }

    /// All answers of its batch are there: from waiting to ready.
    pub fn answered(&mut self)
        requires { stage_of self.old ≡ Some Stage.Waiting }
        ensures { self.new ≡ with_stage self.old Stage.Ready }
    {
        self.set(Stage::Ready);
    }

    /// It is taken: from ready to out.
    pub fn taken(&mut self)
        requires { stage_of self.old ≡ Some Stage.Ready }
        ensures { self.new ≡ with_stage self.old Stage.Out }
    {
        self.set(Stage::Out);
    }

    /// It is brought back undone: from out to ready.
    pub fn back(&mut self)
        requires { stage_of self.old ≡ Some Stage.Out }
        ensures { self.new ≡ with_stage self.old Stage.Ready }
    {
        self.set(Stage::Ready);
    }

    /// It is given back with a batch: from out to ready if all answers are there, otherwise to
    /// waiting.
    pub fn given(&mut self, complete: bool)
        requires { stage_of self.old ≡ Some Stage.Out }
        ensures { self.new ≡ with_stage self.old (if complete then Stage.Ready else Stage.Waiting) }
    {
        self.set(if complete {
            Stage::Ready
        } else {
            Stage::Waiting
        });
    }

    /// Its check found a dependency that differs: from a check that is out to a computation that is
    /// ready.
    pub fn differs(&mut self)
        requires { self.old ≡ TaskState.Checking Stage.Out }
        ensures { self.new ≡ TaskState.Computing Stage.Ready }
    {
        *self = TaskState::Computing(Stage::Ready);
    }

    /// Its check found all the same: from a check that is out to the end, with the value that was
    /// checked.
    pub fn same(&mut self, checked: Arc<V>)
        requires { self.old ≡ TaskState.Checking Stage.Out }
        ensures { self.new ≡ TaskState.Ended (Outcome.Value checked) }
    {
        *self = TaskState::Ended(Outcome::Value(checked));
    }

    /// It ends, from any state that has not ended, with this outcome.
    pub fn end(&mut self, outcome: Outcome<K, V>)
        requires { (stage : Stage) × (stage_of self.old ≡ Some stage) }
        ensures { self.new ≡ TaskState.Ended outcome }
    {
        *self = TaskState::Ended(outcome);
    }

    /// Puts it into another stage; one that has ended stays.
    fn set(&mut self, next: Stage)
        ensures { self.new ≡ with_stage self.old next }
    {
        match self {
            TaskState::Checking(stage) => *stage = next,
            TaskState::Computing(stage) => *stage = next,
            TaskState::Ended(_) => {}
        }
    }
}
