//! Jobs that are taken, brought back and given up, over the tasks of all versions.
ghost use Rattle.std.specs.Prelude.{◌≡◌, ◌↔◌, ◌++◌, [], ◌∷◌, ℕ, IfSome, IfNone, IsTrue, List, map, reverse, true, false, Some, None};
ghost use Rattle.std.specs.Arc.{arc_value};
ghost use Rattle.task_share.specs.Seen.{task_at, is_live};
ghost use Rattle.journal.specs.Events.{commits_of};
ghost use Rattle.dice_jobs.specs.Jobs.{Assigned};
ghost use Rattle.core_laws.specs.Tasks.{IsOut};
ghost use Rattle.dice_tasks.specs.Helds.{held_of};
ghost use Rattle.dice_tasks.specs.Waitings.{TakesJob, ReturnsJob};
ghost use Rattle.injected.specs.Seen.{Seen};
ghost use Rattle.versioned_graph.specs.Entries.{Stored};
ghost use Rattle.core_laws.specs.Desk.{World};
ghost use Rattle.dice_steps.specs.AtHand.{AtHand};
ghost use Rattle.dice_core.specs.Askings.{MayBeAtHand};
ghost use Rattle.dice_tasks.specs.Endings.{path_of, ReachesPath, GivesUpAll, IsJobNamed};
ghost use Rattle.dice_core.specs.Cores.{table_at, core_of, Turned, IsAsBefore, MayStand, StandsOn};
ghost use Rattle.dice_core.specs.Sessions.{SessionsSeen};

use dice_jobs::{Job, JobName};
use dice_key::{Universe, laws_of};
use dice_steps::give_up;
use dice_tasks::{Desk, How, Tasks, put_back, take};
use std::collections::HashMap;

/// Takes the job of the ready task that is to be taken next; `None` exactly if no task is ready. It
/// takes no memory.
pub(crate) fn take_next<U: Universe>(
    desk: &mut Desk<U>,
    versions: &mut HashMap<u64, Tasks<U>>,
) -> Option<Job<U>>
    requires stands { MayStand U.Key.eq U.meaning desk.old versions.old.entries }
    ensures none { IfNone result ((desk.old.ready ≡ []) × (desk.new ≡ desk.old)
        × (versions.new.entries ≡ versions.old.entries)) }
    ensures some { IfSome result (λ j. Turned U.Key.eq U.meaning j.name.version versions.old.entries
        versions.new.entries
        (λ ps qs. TakesJob U.Key.eq j.name.version j.name.key j ps qs desk.old desk.new)) }
    ensures kept { StandsOn U.Key.eq U.meaning desk.old versions.old.entries desk.new
        versions.new.entries }
{
    laws_of::<U>();
    let Some(ready) = desk.next_ready() else {
        return None;
    };
    let version = ready.version;
    let Some(tasks) = versions.get_mut(&version) else {
        return None;
    };
    take::<U>(desk, tasks)
}

/// Takes a job back, undone; a job other than the one that is out is handed back. It takes no
/// memory.
pub(crate) fn bring_back<U: Universe>(
    desk: &mut Desk<U>,
    versions: &mut HashMap<u64, Tasks<U>>,
    job: Job<U>,
) -> Option<Job<U>>
    requires stands { MayStand U.Key.eq U.meaning desk.old versions.old.entries }
    ensures other { IfSome result (λ j. (j ≡ job)
        × ((es : List (U.Key × Stored U.Key U.Value)) (s : Seen U.Key U.Value)
        (x : SessionsSeen U.Key)
        → IsAsBefore U.Key.eq (core_of desk.old versions.old.entries es s x)
        (core_of desk.new versions.new.entries es s x))
        × (task_at U.Key.eq (table_at versions.old.entries job.name.version) job.name.key
        ≡ Some (held_of job IsOut) → ⊥)) }
    ensures events { desk.new.events ≡ desk.old.events }
    ensures back { IfNone result (Turned U.Key.eq U.meaning job.name.version versions.old.entries
        versions.new.entries (λ ps qs. ReturnsJob U.Key.eq job.name.version job.name.key job job ps
        qs desk.old desk.new)) }
    ensures kept { StandsOn U.Key.eq U.meaning desk.old versions.old.entries desk.new
        versions.new.entries }
{
    laws_of::<U>();
    let version = job.name().version();
    let Some(tasks) = versions.get_mut(&version) else {
        return Some(job);
    };
    put_back::<U>(desk, tasks, job)
}

/// Gives up the job of this name: its task and all that wait for it end as lost, and then the tasks
/// at work that nobody asks for any more are dropped; `false` exactly if no job of the name is out.
/// It takes no memory.
pub(crate) fn fail_named<U: Universe>(
    desk: &mut Desk<U>,
    versions: &mut HashMap<u64, Tasks<U>>,
    name: &JobName<U>,
) -> bool
    requires stands { MayStand U.Key.eq U.meaning desk.old versions.old.entries }
    ensures other { result ≡ false
        → (IsJobNamed U.Key.eq name.now (table_at versions.old.entries name.now.version) → ⊥)
        × (desk.new ≡ desk.old) × (versions.new.entries ≡ versions.old.entries) }
    ensures failed { result ≡ true
        → IsJobNamed U.Key.eq name.now (table_at versions.old.entries name.now.version)
        × Turned U.Key.eq U.meaning name.now.version versions.old.entries versions.new.entries
        (λ ps qs. GivesUpAll U.Key.eq name.now.version None name.now.key ps qs desk.old desk.new) }
    ensures kept { StandsOn U.Key.eq U.meaning desk.old versions.old.entries desk.new
        versions.new.entries }
{
    laws_of::<U>();
    let version = name.version();
    if !is_out_among::<U>(versions, name) {
        return false;
    }
    let Some(tasks) = versions.get_mut(&version) else {
        return false;
    };
    give_up::<U>(desk, tasks, version, name.key(), How::Lost);
    true
}

/// Whether the job of this name is out, among the tasks of all versions.
fn is_out_among<U: Universe>(versions: &HashMap<u64, Tasks<U>>, name: &JobName<U>) -> bool
    ensures { IsTrue result
        ↔ IsJobNamed U.Key.eq name.now (table_at versions.now.entries name.now.version) }
{
    match versions.get(&name.version()) {
        Some(tasks) => is_name_out::<U>(tasks, name),
        None => false,
    }
}

/// Whether the job of this name is out, among the tasks of its version.
fn is_name_out<U: Universe>(tasks: &Tasks<U>, name: &JobName<U>) -> bool
    ensures { IsTrue result ↔ IsJobNamed U.Key.eq name.now tasks.now }
{
    laws_of::<U>();
    let Some(task) = tasks.task(name.key()) else {
        return false;
    };
    match task.assignment() {
        Some(own) => task.is_out() && own.name().is_same(name),
        None => false,
    }
}
