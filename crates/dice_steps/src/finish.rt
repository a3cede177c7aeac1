//! Steps that ask no batch: a run that is done, and a check that found all the same or a change.
ghost use Rattle.std.specs.Prelude.{◌≡◌, ◌<◌, ◌++◌, ◌∷◌, [], ℕ, List, Some, IfOk, IfErr, OnOk, OnErr};
ghost use Rattle.std.specs.Arc.{arc_value};
ghost use Rattle.dice_key.specs.Meaning.{Answered};
ghost use Rattle.dice_jobs.specs.Jobs.{Checks, Valued, Unchanged, Changed, IsStepOf, computing};
ghost use Rattle.dice_jobs.specs.Shapes.{work_of};
ghost use Rattle.task_share.specs.Seen.{task_at};
ghost use Rattle.injected.specs.Seen.{Seen};
ghost use Rattle.versioned_graph.specs.Entries.{Stored};
ghost use Rattle.journal.specs.declared.event.Told.TheVariants.{Start, Keep, End};
ghost use Rattle.journal.specs.declared.event.Reason.TheVariants.{Differs};
ghost use Rattle.journal.specs.Tell.{told};
ghost use Rattle.core_laws.specs.Tasks.{IsReady, IsOut};
ghost use Rattle.core_laws.specs.Desk.{World};
ghost use Rattle.dice_steps.specs.Agreements.{AllAgreeIfKept};
ghost use Rattle.dice_steps.specs.AtHand.{AtHand};
ghost use Rattle.dice_steps.specs.Finishings.{EndsWith, IsFinished, EndsAndWakes, IsRefused};
ghost use Rattle.dice_tasks.specs.Hands.{KeepsHands, KeepsDeskRoom, HasDeskRoom};
ghost use Rattle.dice_tasks.specs.Helds.{held_of};
ghost use Rattle.dice_tasks.specs.Waitings.{IsTurned};
ghost use Rattle.dice_steps.specs.Wokens.{HasAnswers, AreWoken};

use crate::shared::Shared;
use crate::wake::{Woken, wake};
use crate::woken::woken_by;
use dep_recorder::Trace;
use dice_jobs::{Assignment, Earlier, Report, Step};
use dice_key::{KeyRef, NoMemory, Universe, ValueRef, laws_of};
use dice_tasks::{Desk, Tasks, differ, end_value, finish};
use journal::{Cause, Event};
use std::sync::Arc;

/// A run that was out is done with this value: an End tells it, the graph keeps the value with the
/// answers as its trace, and the tasks that waited for the key alone go on. At an error nothing
/// that is seen has changed.
///
/// It costs a look-up for each key of the trace, the number of tasks that asked for the key, and
/// that of the keys and values of those that go on.
pub fn done<U: Universe>(
    shared: &mut Shared<U>,
    tasks: &mut Tasks<U>,
    owed: usize,
    step: &Step<U>,
    value: &ValueRef<U>,
) -> Result<(), NoMemory>
    requires at_hand { (w : World U.Key U.Value)
        × AtHand U.Key.eq U.meaning step.now.job.name.version w owed tasks.old shared.old.desk
        shared.old.graph shared.old.cells }
    requires last { shared.old.cells.last < u64.MAX }
    requires out { task_at U.Key.eq tasks.old step.now.job.name.key
        ≡ Some (held_of step.now.job IsOut) }
    requires step { IsStepOf U.meaning U.Value.eq step.now step.now.job }
    requires done { step.now.outcome ≡ Valued (arc_value value.now) }
    ensures events { OnOk result (shared.new.desk.events ≡ shared.old.desk.events
        ++ End step.now.job.name.version step.now.job.name.key ∷ []) }
    ensures given { OnOk result (EndsAndWakes U.Key.eq U.meaning shared.old.cells
        step.now.job.name.version step.now.job.name.key (arc_value value.now) step.now.job.name
        tasks.old tasks.new) }
    ensures entries { OnOk result (IsFinished U.Key.eq U.meaning U.Value.eq shared.old.cells
        step.now.job.name.version step.now.job.name.key (arc_value value.now) step.now.job.answered
        shared.old.graph shared.new.graph) }
    ensures err { OnErr result (IsRefused tasks.old tasks.new shared.old.desk shared.new.desk
        shared.old.graph shared.new.graph) }
    ensures cells { shared.new.cells ≡ shared.old.cells }
    ensures kept { (w : World U.Key U.Value)
        → AtHand U.Key.eq U.meaning step.now.job.name.version w owed tasks.old shared.old.desk
        shared.old.graph shared.old.cells
        → AtHand U.Key.eq U.meaning step.now.job.name.version w owed tasks.new shared.new.desk
        shared.new.graph shared.old.cells }
{
    let name = step.assignment().name();
    let event = Event::End(name.version(), Arc::try_clone(name.key())?);
    end_step::<U>(shared, tasks, owed, step, event, value)
}

/// A check of an earlier value that was out found all the same: a Keep tells it with the base, the
/// graph keeps the value with the answers as its trace, and the tasks that waited for the key alone
/// go on. At an error nothing that is seen has changed.
///
/// It costs what `done` costs.
pub fn same<U: Universe>(
    shared: &mut Shared<U>,
    tasks: &mut Tasks<U>,
    owed: usize,
    step: &Step<U>,
    earlier: &Earlier<U>,
) -> Result<(), NoMemory>
    requires at_hand { (w : World U.Key U.Value)
        × AtHand U.Key.eq U.meaning step.now.job.name.version w owed tasks.old shared.old.desk
        shared.old.graph shared.old.cells }
    requires last { shared.old.cells.last < u64.MAX }
    requires out { task_at U.Key.eq tasks.old step.now.job.name.key
        ≡ Some (held_of step.now.job IsOut) }
    requires step { IsStepOf U.meaning U.Value.eq step.now step.now.job }
    requires same { step.now.outcome ≡ Unchanged }
    requires earlier { work_of (Some earlier.now) ≡ step.now.job.work }
    ensures events { OnOk result (shared.new.desk.events ≡ shared.old.desk.events
        ++ Keep step.now.job.name.version step.now.job.name.key earlier.now.base ∷ []) }
    ensures given { OnOk result (EndsAndWakes U.Key.eq U.meaning shared.old.cells
        step.now.job.name.version step.now.job.name.key (arc_value earlier.now.value)
        step.now.job.name tasks.old tasks.new) }
    ensures entries { OnOk result (IsFinished U.Key.eq U.meaning U.Value.eq shared.old.cells
        step.now.job.name.version step.now.job.name.key (arc_value earlier.now.value)
        step.now.job.answered shared.old.graph shared.new.graph) }
    ensures err { OnErr result (IsRefused tasks.old tasks.new shared.old.desk shared.new.desk
        shared.old.graph shared.new.graph) }
    ensures cells { shared.new.cells ≡ shared.old.cells }
    ensures kept { (w : World U.Key U.Value)
        → AtHand U.Key.eq U.meaning step.now.job.name.version w owed tasks.old shared.old.desk
        shared.old.graph shared.old.cells
        → AtHand U.Key.eq U.meaning step.now.job.name.version w owed tasks.new shared.new.desk
        shared.new.graph shared.old.cells }
{
    let name = step.assignment().name();
    let event = Event::Keep(name.version(), Arc::try_clone(name.key())?, earlier.base);
    let value = &earlier.value;
    end_step::<U>(shared, tasks, owed, step, event, value)
}

/// A check of an earlier value that was out found that the answer to a key has changed: a Start
/// tells it, and the task computes the value, from the answers that the check has. At an error the
/// step is handed back, and nothing that is seen has changed.
pub fn differs<U: Universe>(
    desk: &mut Desk<U>,
    tasks: &mut Tasks<U>,
    owed: usize,
    step: Step<U>,
) -> Result<(), (NoMemory, Step<U>)>
    requires at_hand { (w : World U.Key U.Value) × (es : List (U.Key × Stored U.Key U.Value))
        × (cells : Seen U.Key U.Value)
        × AtHand U.Key.eq U.meaning step.job.name.version w owed tasks.old desk.old es cells }
    requires out { task_at U.Key.eq tasks.old step.job.name.key ≡ Some (held_of step.job IsOut) }
    requires step { IsStepOf U.meaning U.Value.eq step step.job }
    requires differs { (d : U.Key) × (step.outcome ≡ Changed d) }
    ensures events { OnOk result ((d : U.Key) (x : U.Value) (T : List (Answered U.Key U.Value)) (b :
        ℕ) → step.outcome ≡ Changed d → step.job.work ≡ Checks x T b → desk.new.events
        ≡ desk.old.events ++ Start step.job.name.version step.job.name.key (Differs b d) ∷ []) }
    ensures given { OnOk result (IsTurned U.Key.eq step.job.name.key (held_of step.job IsOut)
        (held_of (computing step.job) IsReady) tasks.old tasks.new) }
    ensures step { IfErr result (λ e. e.1 ≡ step) }
    ensures err { OnErr result
        ((tasks.new ≡ tasks.old) × KeepsHands desk.old desk.new × KeepsDeskRoom desk.old desk.new) }
    ensures kept { (w : World U.Key U.Value) (es : List (U.Key
        × Stored U.Key U.Value)) (cells : Seen U.Key U.Value)
        → AtHand U.Key.eq U.meaning step.job.name.version w owed tasks.old desk.old es cells
        → AtHand U.Key.eq U.meaning step.job.name.version w owed tasks.new desk.new es cells }
{
    laws_of::<U>();
    let begun = match plan_anew::<U>(desk, owed, &step) {
        Ok(begun) => begun,
        Err(refused) => return Err((refused, step)),
    };
    let Anew {
        key,
        event,
        assignment,
        own,
    } = begun;
    let job = step.into_replay(assignment);
    differ(desk, tasks, &key, event, job, own);
    Ok(())
}

/// What a task needs to compute its value after a check, made ahead.
#[derive(Drop)]
struct Anew<U: Universe> {
    key: KeyRef<U>,
    /// The Start that tells it.
    event: Event<U::Key, U::Value>,
    /// The assignment, for the job and for the task.
    assignment: Assignment<U>,
    own: Assignment<U>,
}

/// Makes ahead what a task needs whose check found a change, with room for the event.
fn plan_anew<U: Universe>(
    desk: &mut Desk<U>,
    owed: usize,
    step: &Step<U>,
) -> Result<Anew<U>, NoMemory>
    requires step { IsStepOf U.meaning U.Value.eq step.now step.now.job }
    requires differs { (d : U.Key) × (step.now.outcome ≡ Changed d) }
    ensures key { IfOk result (λ a. arc_value a.key ≡ step.now.job.name.key) }
    ensures event { IfOk result (λ a. (d : U.Key) (x : U.Value) (T : List (Answered U.Key U.Value))
        (b : ℕ) → step.now.outcome ≡ Changed d → step.now.job.work ≡ Checks x T b → told a.event
        ≡ Start step.now.job.name.version step.now.job.name.key (Differs b d)) }
    ensures assignment { IfOk result (λ a. a.assignment ≡ computing step.now.job) }
    ensures own { IfOk result (λ a. a.own ≡ computing step.now.job) }
    ensures same { KeepsHands desk.old desk.new }
    ensures room { KeepsDeskRoom desk.old desk.new }
    ensures ok { OnOk result (HasDeskRoom owed 1 0 desk.new) }
{
    let (Report::Differs(dep), Some(earlier)) = (step.report(), step.assignment().earlier()) else {
        unreachable!();
    };
    let name = step.assignment().name();
    let cause = Cause::Differs(earlier.base, Arc::try_clone(dep)?);
    let event = Event::Start(name.version(), Arc::try_clone(name.key())?, cause);
    let key = Arc::try_clone(name.key())?;
    let assignment = step.assignment().computing()?;
    let own = assignment.try_clone()?;
    desk.reserve(owed, 1, 0)?;
    Ok(Anew {
        key,
        event,
        assignment,
        own,
    })
}

/// What the end of a task needs, made ahead.
#[derive(Drop)]
struct Ending<U: Universe> {
    /// The key and the value, and the trace through which it came, for the graph.
    key: KeyRef<U>,
    value: ValueRef<U>,
    trace: Arc<Trace<U>>,
    /// The value once more, for the task.
    outcome: ValueRef<U>,
    /// The tasks that go on.
    woken: Vec<Woken<U>>,
}

/// Makes ahead what the end of a key's task with this value needs. It takes the memory for it, and
/// changes nothing.
fn prepare_end<U: Universe>(
    shared: &Shared<U>,
    tasks: &Tasks<U>,
    step: &Step<U>,
    value: &ValueRef<U>,
) -> Result<Ending<U>, NoMemory>
    requires answers { HasAnswers U.Key.eq U.meaning step.now.job.name.key tasks.now }
    requires agree { AllAgreeIfKept U.Key.eq U.meaning shared.now.cells step.now.job.name.version
        step.now.job.name.key (arc_value value.now) tasks.now shared.now.graph }
    ensures key { IfOk result (λ e. arc_value e.key ≡ step.now.job.name.key) }
    ensures value { IfOk result (λ e. arc_value e.value ≡ arc_value value.now) }
    ensures trace { IfOk result (λ e. arc_value e.trace ≡ step.now.job.answered) }
    ensures outcome { IfOk result (λ e. arc_value e.outcome ≡ arc_value value.now) }
    ensures woken { IfOk result (λ e. AreWoken U.Key.eq U.meaning shared.now.cells
        step.now.job.name.version step.now.job.name.key (arc_value value.now) tasks.now
        e.woken.items) }
{
    let name = step.assignment().name();
    let woken = woken_by::<U>(shared, tasks, name.version(), name.key(), value)?;
    let trace = step.assignment().answered()?;
    let outcome = Arc::try_clone(value)?;
    let value = Arc::try_clone(value)?;
    let key = Arc::try_clone(name.key())?;
    Ok(Ending {
        key,
        value,
        trace,
        outcome,
        woken,
    })
}

/// The step ends the task of its key, which is out, with this value, and this event, an End or a
/// Keep, tells it.
fn end_step<U: Universe>(
    shared: &mut Shared<U>,
    tasks: &mut Tasks<U>,
    owed: usize,
    step: &Step<U>,
    event: Event<U::Key, U::Value>,
    value: &ValueRef<U>,
) -> Result<(), NoMemory>
    requires at_hand { (w : World U.Key U.Value)
        × AtHand U.Key.eq U.meaning step.now.job.name.version w owed tasks.old shared.old.desk
        shared.old.graph shared.old.cells }
    requires last { shared.old.cells.last < u64.MAX }
    requires out { task_at U.Key.eq tasks.old step.now.job.name.key
        ≡ Some (held_of step.now.job IsOut) }
    requires step { IsStepOf U.meaning U.Value.eq step.now step.now.job }
    requires ends { EndsWith step.now.job.name.version step.now.job.name.key step.now (arc_value
        value.now) (told event) }
    ensures events { OnOk result (shared.new.desk.events ≡ shared.old.desk.events
        ++ told event ∷ []) }
    ensures given { OnOk result (EndsAndWakes U.Key.eq U.meaning shared.old.cells
        step.now.job.name.version step.now.job.name.key (arc_value value.now) step.now.job.name
        tasks.old tasks.new) }
    ensures entries { OnOk result (IsFinished U.Key.eq U.meaning U.Value.eq shared.old.cells
        step.now.job.name.version step.now.job.name.key (arc_value value.now) step.now.job.answered
        shared.old.graph shared.new.graph) }
    ensures err { OnErr result (IsRefused tasks.old tasks.new shared.old.desk shared.new.desk
        shared.old.graph shared.new.graph) }
    ensures cells { shared.new.cells ≡ shared.old.cells }
    ensures kept { (w : World U.Key U.Value)
        → AtHand U.Key.eq U.meaning step.now.job.name.version w owed tasks.old shared.old.desk
        shared.old.graph shared.old.cells
        → AtHand U.Key.eq U.meaning step.now.job.name.version w owed tasks.new shared.new.desk
        shared.new.graph shared.old.cells }
{
    laws_of::<U>();
    let name = step.assignment().name();
    let (version, own) = (name.version(), name.key());
    let ending = prepare_end::<U>(shared, tasks, step, value)?;
    let Ending {
        key,
        value: finished,
        trace,
        outcome,
        woken,
    } = ending;
    shared.desk.reserve(owed, 0, woken.len())?;
    finish(
        &mut shared.graph,
        &shared.cells,
        key,
        version,
        finished,
        trace,
    )?;
    end_value(&mut shared.desk, tasks, version, own, event, outcome);
    wake(&mut shared.desk, tasks, own, woken);
    Ok(())
}
