//! Steps that are given, over the tasks of all versions.
ghost use Rattle.std.specs.Prelude.{◌≡◌, ◌↔◌, ◌<◌, ℕ, List, Some, IsTrue, true, IfOk, IfErr, IfSome, IfNone, OnOk, OnErr};
ghost use Rattle.std.specs.Arc.{arc_value};
ghost use Rattle.std.specs.Option.{option_copied};
ghost use Rattle.task_share.specs.Seen.{task_at};
ghost use Rattle.dice_jobs.specs.Jobs.{Assigned, Wanting, Changed, outcome_of};
ghost use Rattle.dice_jobs.specs.Alike.{AreAlike};
ghost use Rattle.core_laws.specs.Tasks.{IsOut};
ghost use Rattle.core_laws.specs.Desk.{World};
ghost use Rattle.dice_steps.specs.AtHand.{AtHand};
ghost use Rattle.dice_core.specs.Cores.{table_at, core_of, Turned, IsAsBefore, CoreStands};
ghost use Rattle.dice_core.specs.Givings.{stale_of, Gives, IsTakenUp};
ghost use Rattle.dice_tasks.specs.Helds.{held_of};
ghost use Rattle.dice_core.specs.Joinings.{KeepsAtHand};
ghost use Rattle.dice_core.specs.Sessions.{SessionsSeen, owed as owed_of};

use dice_jobs::{JobName, Report, Step};
use dice_key::{NoMemory, Universe, laws_of};
use dice_steps::{Shared, ask_batch, differs, done, same};
use dice_tasks::{Task, Tasks};
use std::collections::HashMap;

/// What became of a step that was given.
#[derive(Drop)]
pub enum Gave<U: Universe> {
    /// It was taken up.
    Taken,
    /// It is not of the job of a task that is out, and so changes nothing; it is handed back.
    Stale(Step<U>),
}

/// Takes up a step, if it is of the job of a task that is out; otherwise it is stale. If memory is
/// refused all is as before, and the step is handed back.
pub(crate) fn give_in<U: Universe>(
    shared: &mut Shared<U>,
    versions: &mut HashMap<u64, Tasks<U>>,
    owed: usize,
    step: Step<U>,
) -> Result<Gave<U>, (NoMemory, Step<U>)>
    requires stands { (x : SessionsSeen U.Key)
        × CoreStands U.Key.eq U.meaning (core_of shared.old.desk versions.old.entries
        shared.old.graph shared.old.cells x) × (owed ≡ owed_of x) }
    ensures stale { IfOk result (λ g. IfSome (stale_of g) (λ s. (s ≡ step)
        × (task_at U.Key.eq (table_at versions.old.entries step.job.name.version) step.job.name.key
        ≡ Some (held_of step.job IsOut) → ⊥) × (shared.new.desk ≡ shared.old.desk)
        × (versions.new.entries ≡ versions.old.entries) × (shared.new.graph ≡ shared.old.graph))) }
    ensures taken { IfOk result (λ g. IfNone (stale_of g) (Turned U.Key.eq U.meaning
        step.job.name.version versions.old.entries versions.new.entries (λ ps qs. Gives U.Key.eq
        step.job.name.version step ps qs shared.old.desk shared.new.desk))) }
    ensures does { IfOk result (λ g. IfNone (stale_of g) (Turned U.Key.eq U.meaning
        step.job.name.version versions.old.entries versions.new.entries (λ ps qs. IsTakenUp U.Key.eq
        U.meaning U.Value.eq step.job.name.version step shared.old.cells ps qs shared.old.graph
        shared.new.graph shared.old.desk shared.new.desk step.outcome))) }
    ensures step { IfErr result (λ e. e.1 ≡ step) }
    ensures err { OnErr result ((task_at U.Key.eq (table_at versions.old.entries
        step.job.name.version) step.job.name.key ≡ Some (held_of step.job IsOut))
        × ((x : SessionsSeen U.Key)
        → IsAsBefore U.Key.eq (core_of shared.old.desk versions.old.entries shared.old.graph
        shared.old.cells x) (core_of shared.new.desk versions.new.entries shared.new.graph
        shared.new.cells x))) }
    ensures cells { shared.new.cells ≡ shared.old.cells }
    ensures kept { OnOk result ((x : SessionsSeen U.Key) → owed ≡ owed_of x
        → CoreStands U.Key.eq U.meaning (core_of shared.old.desk versions.old.entries
        shared.old.graph shared.old.cells x)
        → CoreStands U.Key.eq U.meaning (core_of shared.new.desk versions.new.entries
        shared.new.graph shared.new.cells x)) }
{
    if !is_of_out::<U>(versions, &step) {
        return Ok(Gave::Stale(step));
    }
    take_up::<U>(shared, versions, owed, step)
}

/// Takes up a step of the job of a task that is out. If memory is refused all is as before, and the
/// step is handed back.
pub(crate) fn take_up<U: Universe>(
    shared: &mut Shared<U>,
    versions: &mut HashMap<u64, Tasks<U>>,
    owed: usize,
    step: Step<U>,
) -> Result<Gave<U>, (NoMemory, Step<U>)>
    requires stands { (x : SessionsSeen U.Key)
        × CoreStands U.Key.eq U.meaning (core_of shared.old.desk versions.old.entries
        shared.old.graph shared.old.cells x) × (owed ≡ owed_of x) }
    requires out { task_at U.Key.eq (table_at versions.old.entries step.job.name.version)
        step.job.name.key ≡ Some (held_of step.job IsOut) }
    ensures fresh { IfOk result (λ g. IfSome (stale_of g) (λ s. ⊥)) }
    ensures taken { IfOk result (λ g. IfNone (stale_of g) (Turned U.Key.eq U.meaning
        step.job.name.version versions.old.entries versions.new.entries (λ ps qs. Gives U.Key.eq
        step.job.name.version step ps qs shared.old.desk shared.new.desk))) }
    ensures does { IfOk result (λ g. IfNone (stale_of g) (Turned U.Key.eq U.meaning
        step.job.name.version versions.old.entries versions.new.entries (λ ps qs. IsTakenUp U.Key.eq
        U.meaning U.Value.eq step.job.name.version step shared.old.cells ps qs shared.old.graph
        shared.new.graph shared.old.desk shared.new.desk step.outcome))) }
    ensures step { IfErr result (λ e. e.1 ≡ step) }
    ensures err { OnErr result ((x : SessionsSeen U.Key)
        → IsAsBefore U.Key.eq (core_of shared.old.desk versions.old.entries shared.old.graph
        shared.old.cells x) (core_of shared.new.desk versions.new.entries shared.new.graph
        shared.new.cells x)) }
    ensures cells { shared.new.cells ≡ shared.old.cells }
    ensures kept { OnOk result ((x : SessionsSeen U.Key) → owed ≡ owed_of x
        → CoreStands U.Key.eq U.meaning (core_of shared.old.desk versions.old.entries
        shared.old.graph shared.old.cells x)
        → CoreStands U.Key.eq U.meaning (core_of shared.new.desk versions.new.entries
        shared.new.graph shared.new.cells x)) }
{
    laws_of::<U>();
    let version = step.assignment().name().version();
    let Some(tasks) = versions.get_mut(&version) else {
        unreachable!();
    };
    take_step::<U>(shared, tasks, owed, step)
}

/// Whether the step is of the job of a task that is out.
fn is_of_out<U: Universe>(versions: &HashMap<u64, Tasks<U>>, step: &Step<U>) -> bool
    ensures { IsTrue result ↔ (task_at U.Key.eq (table_at versions.now.entries
        step.now.job.name.version) step.now.job.name.key ≡ Some (held_of step.now.job IsOut)) }
{
    match task_named(versions, step.assignment().name()) {
        Some(task) => task.is_of(step),
        None => false,
    }
}

/// Whether the job of a task that is out is like the step's.
pub(crate) fn is_like_out<U: Universe>(versions: &HashMap<u64, Tasks<U>>, step: &Step<U>) -> bool
    ensures { IsTrue result ↔ ((j : Assigned U.Key U.Value)
        × (task_at U.Key.eq (table_at versions.now.entries step.now.job.name.version)
        step.now.job.name.key ≡ Some (held_of j IsOut)) × AreAlike step.now.job j) }
{
    match task_named(versions, step.assignment().name()) {
        Some(task) => task.is_like(step),
        None => false,
    }
}

/// The task of the key and the version of this name.
fn task_named<'a, U: Universe>(
    versions: &'a HashMap<u64, Tasks<U>>,
    name: &JobName<U>,
) -> Option<&'a Task<U>>
    ensures { option_copied result
        ≡ task_at U.Key.eq (table_at versions.now.entries name.now.version) name.now.key }
{
    let tasks = versions.get(&name.version())?;
    tasks.task(name.key())
}

/// Takes up a step of the job of a task that is out, among the tasks of its version.
fn take_step<U: Universe>(
    shared: &mut Shared<U>,
    tasks: &mut Tasks<U>,
    owed: usize,
    step: Step<U>,
) -> Result<Gave<U>, (NoMemory, Step<U>)>
    requires hand { (w : World U.Key U.Value)
        × AtHand U.Key.eq U.meaning step.job.name.version w owed tasks.old shared.old.desk
        shared.old.graph shared.old.cells }
    requires out { task_at U.Key.eq tasks.old step.job.name.key ≡ Some (held_of step.job IsOut) }
    ensures taken { IfOk result (λ g. IfNone (stale_of g) (Gives U.Key.eq step.job.name.version step
        tasks.old tasks.new shared.old.desk shared.new.desk)) }
    ensures does { IfOk result (λ g. IfNone (stale_of g) (IsTakenUp U.Key.eq U.meaning U.Value.eq
        step.job.name.version step shared.old.cells tasks.old tasks.new shared.old.graph
        shared.new.graph shared.old.desk shared.new.desk step.outcome)) }
    ensures fresh { IfOk result (λ g. IfSome (stale_of g) (λ s. ⊥)) }
    ensures step { IfErr result (λ e. e.1 ≡ step) }
    ensures err { OnErr result (KeepsAtHand U.Key.eq tasks.old tasks.new shared.old.desk
        shared.new.desk) }
    ensures graph { OnErr result (shared.new.graph ≡ shared.old.graph) }
    ensures cells { shared.new.cells ≡ shared.old.cells }
    ensures kept { OnOk result ((w : World U.Key U.Value)
        → AtHand U.Key.eq U.meaning step.job.name.version w owed tasks.old shared.old.desk
        shared.old.graph shared.old.cells
        → AtHand U.Key.eq U.meaning step.job.name.version w owed tasks.new shared.new.desk
        shared.new.graph shared.old.cells) }
{
    laws_of::<U>();
    if asks::<U>(&step) {
        ask_batch::<U>(shared, tasks, owed, step)?;
        return Ok(Gave::Taken);
    }
    if finds_change::<U>(&step) {
        differs::<U>(&mut shared.desk, tasks, owed, step)?;
        return Ok(Gave::Taken);
    }
    match end::<U>(shared, tasks, owed, &step) {
        Ok(()) => Ok(Gave::Taken),
        Err(refused) => Err((refused, step)),
    }
}

/// Whether the step asks a batch.
fn asks<U: Universe>(step: &Step<U>) -> bool
    ensures { IsTrue result ↔ ((ks : List U.Key) × (step.now.outcome ≡ Wanting ks)) }
{
    matches!(step.report(), Report::Asks(_))
}

/// Whether the step is that of a check that found a change.
fn finds_change<U: Universe>(step: &Step<U>) -> bool
    ensures changed { IsTrue result ↔ ((d : U.Key) × (step.now.outcome ≡ Changed d)) }
    ensures outcome { step.now.outcome ≡ outcome_of U.meaning U.Value.eq step.now.job }
{
    matches!(step.report(), Report::Differs(_))
}

/// Takes up a step that ends its task with a value.
fn end<U: Universe>(
    shared: &mut Shared<U>,
    tasks: &mut Tasks<U>,
    owed: usize,
    step: &Step<U>,
) -> Result<(), NoMemory>
    requires hand { (w : World U.Key U.Value)
        × AtHand U.Key.eq U.meaning step.now.job.name.version w owed tasks.old shared.old.desk
        shared.old.graph shared.old.cells }
    requires out { task_at U.Key.eq tasks.old step.now.job.name.key
        ≡ Some (held_of step.now.job IsOut) }
    requires asks { (ks : List U.Key) → step.now.outcome ≡ Wanting ks → ⊥ }
    requires differs { (d : U.Key) → step.now.outcome ≡ Changed d → ⊥ }
    ensures taken { OnOk result (Gives U.Key.eq step.now.job.name.version step.now tasks.old
        tasks.new shared.old.desk shared.new.desk) }
    ensures does { OnOk result (IsTakenUp U.Key.eq U.meaning U.Value.eq step.now.job.name.version
        step.now shared.old.cells tasks.old tasks.new shared.old.graph shared.new.graph
        shared.old.desk shared.new.desk step.now.outcome) }
    ensures err { OnErr result (KeepsAtHand U.Key.eq tasks.old tasks.new shared.old.desk
        shared.new.desk) }
    ensures graph { OnErr result (shared.new.graph ≡ shared.old.graph) }
    ensures cells { shared.new.cells ≡ shared.old.cells }
    ensures kept { OnOk result ((w : World U.Key U.Value)
        → AtHand U.Key.eq U.meaning step.now.job.name.version w owed tasks.old shared.old.desk
        shared.old.graph shared.old.cells
        → AtHand U.Key.eq U.meaning step.now.job.name.version w owed tasks.new shared.new.desk
        shared.new.graph shared.old.cells) }
{
    laws_of::<U>();
    let _index = shared.desk.next_index()?;
    match (step.report(), step.assignment().earlier()) {
        (Report::Done(value), _) => done::<U>(shared, tasks, owed, step, value),
        (Report::Same, Some(earlier)) => same::<U>(shared, tasks, owed, step, earlier),
        _ => unreachable!(),
    }
}
