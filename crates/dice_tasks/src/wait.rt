//! Tasks that are taken, put back, wait and go on.
ghost use Rattle.std.specs.Prelude.{◌≡◌, ◌<◌, ◌++◌, ◌∷◌, ◌||◌, [], ℕ, List, length, reverse, true, Some, IfSome, IfNone};
ghost use Rattle.std.specs.Arc.{arc_value};
ghost use Rattle.std.specs.List.{AllZip};
ghost use Rattle.dice_model.specs.Eval.{HasValue};
ghost use Rattle.dice_jobs.specs.Jobs.{answered_more};
ghost use Rattle.task_share.specs.Asked.{By};
ghost use Rattle.task_share.specs.Seen.{task_at, asks, KeepsTasks};
ghost use Rattle.journal.specs.Events.{commits_of};
ghost use Rattle.core_laws.specs.Tasks.{IsReady, IsOut, IsWaiting};
ghost use Rattle.core_laws.specs.Stands.{AsksNext};
ghost use Rattle.core_laws.specs.Desk.{World, is_ready};
ghost use Rattle.dice_tasks.specs.Helds.{held_of};
ghost use Rattle.dice_tasks.specs.Hands.{Returns, Working, tasks_of};
ghost use Rattle.dice_tasks.specs.Endings.{Knows};
ghost use Rattle.dice_tasks.specs.Waitings.{IsTurned, KeepsTable, TakesJob, ReturnsJob, HasRoomFor, waits_so, ParksJob, MayPark};
ghost use Rattle.lists.specs.Lists.{Has};

use crate::Tasks;
use crate::desk::Desk;
use crate::task::{Next, Task};
use dice_jobs::{Job, Parked};
use dice_key::{KeyRef, Universe, laws_of};
use task_share::Wait;

/// Takes the job of the ready task that is to be taken next, among the tasks of its version: it
/// goes out. It takes no memory.
pub fn take<U: Universe>(desk: &mut Desk<U>, tasks: &mut Tasks<U>) -> Option<Job<U>>
    requires { (v : ℕ) × (k : U.Key) × (ps : List (ℕ × U.Key)) × (w : World U.Key U.Value)
        × (owed : ℕ) × (desk.old.ready ≡ ps ++ (v, k) ∷ [])
        × Working U.Key.eq U.meaning v [] w owed tasks.old desk.old }
    ensures taken { IfSome result
        (λ j. TakesJob U.Key.eq j.name.version j.name.key j tasks.old tasks.new desk.old desk.new) }
    ensures kept { IfSome result (λ j. (w : World U.Key U.Value) (W : List U.Key) (owed : ℕ)
        → Working U.Key.eq U.meaning j.name.version W w owed tasks.old desk.old
        → Working U.Key.eq U.meaning j.name.version W w owed tasks.new desk.new) }
    ensures some { IfNone result ⊥ }
{
    laws_of::<U>();
    let Some(ready) = desk.next_ready() else {
        return None;
    };
    let Some(job) = take_job::<U>(tasks, &ready.key) else {
        return None;
    };
    desk.taken();
    Some(job)
}

/// Takes the job of the ready task of a key. It takes no memory.
fn take_job<U: Universe>(tasks: &mut Tasks<U>, key: &KeyRef<U>) -> Option<Job<U>>
    requires { is_ready (tasks_of U.Key.eq tasks.old (arc_value key.now)) ≡ true }
    ensures taken { IfSome result (λ j. IsTurned U.Key.eq (arc_value key.now) (held_of j IsReady)
        (held_of j IsOut) tasks.old tasks.new) }
    ensures some { IfNone result ⊥ }
{
    laws_of::<U>();
    let task = tasks.task_mut(key)?;
    task.take()
}

/// Takes back a job, undone, if it is out: its task is ready again. Another job is handed back. It
/// takes no memory.
pub fn put_back<U: Universe>(
    desk: &mut Desk<U>,
    tasks: &mut Tasks<U>,
    job: Job<U>,
) -> Option<Job<U>>
    requires known { Knows U.Key.eq job.name.version tasks.old desk.old }
    ensures same { IfSome result
        (λ j. (j ≡ job) × (desk.new ≡ desk.old) × KeepsTable U.Key.eq tasks.old tasks.new) }
    ensures other { IfSome result
        (λ j. task_at U.Key.eq tasks.old job.name.key ≡ Some (held_of job IsOut) → ⊥) }
    ensures back { IfNone result (ReturnsJob U.Key.eq job.name.version job.name.key job job
        tasks.old tasks.new desk.old desk.new) }
    ensures kept { IfNone result ((w : World U.Key U.Value) (W : List U.Key) (owed : ℕ)
        → Working U.Key.eq U.meaning job.name.version W w owed tasks.old desk.old
        → Working U.Key.eq U.meaning job.name.version W w owed tasks.new desk.new) }
{
    laws_of::<U>();
    let Some(index) = desk.index_of(job.name().version(), job.name().key()) else {
        return Some(job);
    };
    let Some(key) = desk.key_at(index) else {
        return Some(job);
    };
    let Some(task) = tasks.task_mut(key) else {
        return Some(job);
    };
    return_to::<U>(desk, task, job)
}

/// Takes back a job, undone, if this task's is out. It takes no memory.
fn return_to<U: Universe>(desk: &mut Desk<U>, task: &mut Task<U>, job: Job<U>) -> Option<Job<U>>
    requires known { task.old ≡ held_of job IsOut
        → Has desk.old.out (job.name.version, job.name.key) }
    ensures some { IfSome result (λ j. (j ≡ job) × (task.new ≡ task.old) × (desk.new ≡ desk.old)
        × (task.old ≡ held_of job IsOut → ⊥)) }
    ensures none { IfNone result ((task.old ≡ held_of job IsOut) × (task.new ≡ held_of job IsReady)
        × Returns (job.name.version, job.name.key) desk.old desk.new) }
{
    match task.back(job) {
        Some(job) => Some(job),
        None => {
            let name = task.name();
            desk.returned(name.version(), name.key());
            None
        }
    }
}

/// The job of a key, which was out, has asked a batch that is answered already: its task is ready
/// again, with this to go on. It takes no memory.
pub fn go_on<U: Universe>(
    desk: &mut Desk<U>,
    tasks: &mut Tasks<U>,
    version: u64,
    key: &KeyRef<U>,
    parked: Parked<U>,
    next: Next<U>,
)
    requires known { Knows U.Key.eq version tasks.old desk.old }
    requires out { task_at U.Key.eq tasks.old (arc_value key.now)
        ≡ Some (held_of parked.job IsOut) }
    requires count { length next.values ≡ length parked.keys }
    requires next { next.job ≡ answered_more parked.job parked.keys next.values }
    ensures ready { ReturnsJob U.Key.eq version (arc_value key.now) parked.job next.job tasks.old
        tasks.new desk.old desk.new }
    ensures kept { (w : World U.Key U.Value) (W : List U.Key) (owed : ℕ)
        → Working U.Key.eq U.meaning version W w owed tasks.old desk.old
        → AsksNext U.Key.eq U.meaning version (arc_value key.now) parked.job.work
        parked.job.answered (IsWaiting parked.keys)
        → AllZip (HasValue U.Key.eq U.meaning (commits_of (reverse desk.old.events)) version)
        parked.keys next.values → Working U.Key.eq U.meaning version W w owed tasks.new desk.new }
{
    laws_of::<U>();
    let Some(task) = tasks.task_mut(key) else {
        return;
    };
    task.go_on(parked, next);
    desk.returned(version, key);
}

/// The job of a key, which was out, waits for its batch, by these waits of its task, in room made
/// ahead. It takes no memory.
pub fn park<U: Universe>(
    desk: &mut Desk<U>,
    tasks: &mut Tasks<U>,
    version: u64,
    key: &KeyRef<U>,
    parked: Parked<U>,
    waits: Vec<Wait<U::Key>>,
)
    requires known { Knows U.Key.eq version tasks.old desk.old }
    requires out { task_at U.Key.eq tasks.old (arc_value key.now)
        ≡ Some (held_of parked.job IsOut) }
    requires room { HasRoomFor U.Key.eq waits.items tasks.old }
    ensures parks { ParksJob U.Key.eq version (arc_value key.now) parked waits.items tasks.old
        tasks.new desk.old desk.new }
    ensures kept { (w : World U.Key U.Value) (W : List U.Key) (owed : ℕ)
        → Working U.Key.eq U.meaning version W w owed tasks.old desk.old
        → MayPark U.Key.eq U.meaning version (arc_value key.now) parked waits.items tasks.old
        → Working U.Key.eq U.meaning version W w owed tasks.new desk.new }
{
    laws_of::<U>();
    let Some(task) = tasks.task_mut(key) else {
        return;
    };
    task.park(parked);
    desk.left(version, key);
    add_waits::<U>(tasks, waits);
}

/// Adds these waits, in room made ahead. It takes no memory.
fn add_waits<U: Universe>(tasks: &mut Tasks<U>, waits: Vec<Wait<U::Key>>)
    requires { HasRoomFor U.Key.eq waits.items tasks.old }
    ensures tasks { KeepsTasks U.Key.eq tasks.old tasks.new }
    ensures asks { (q : U.Key) (a : By U.Key)
        → asks U.Key.eq tasks.new q a
        ≡ (asks U.Key.eq tasks.old q a || waits_so U.Key.eq waits.items q a) }
{
    laws_of::<U>();
    let mut rest = waits;
    'each: while let Some(wait) = rest.pop() {
        tasks.add_wait(wait);
    }
}
