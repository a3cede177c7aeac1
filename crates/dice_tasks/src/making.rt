//! Tasks that are made.
ghost use Rattle.std.specs.Prelude.{◌≡◌, ◌≢◌, ◌<◌, ◌+◌, ℕ, List, reverse, true, false, IfOk, MatchBool};
ghost use Rattle.std.specs.Arc.{arc_value};
ghost use Rattle.dice_jobs.specs.Jobs.{Name};
ghost use Rattle.std.specs.Option.{option_copied};
ghost use Rattle.task_share.specs.Seen.{Share, task_at, is_live, has_place};
ghost use Rattle.dice_tasks.specs.Helds.{Held};
ghost use Rattle.versioned_graph.specs.Entries.{entry_at};
ghost use Rattle.core_laws.specs.Desk.{World};
ghost use Rattle.dice_key.specs.declared.universe.Kind.TheVariants.{Injected};
ghost use Rattle.versioned_graph.specs.Looks.{Matches, Computes, Checks, look};
ghost use Rattle.dice_tasks.specs.Loads.{AreCopies};
ghost use Rattle.dice_tasks.specs.Entries.{EntriesStand};
ghost use Rattle.dice_tasks.specs.Hands.{Readies, Working, with_made};
ghost use Rattle.dice_tasks.specs.Makings.{CanMake, HasTask, IsFree, IsMade, IsMaking, IsMakingFor, IsOfKey, Makes, MakesAlone, MayMake};
ghost use Rattle.dice_tasks.specs.Shelves.{place_of};
ghost use Rattle.lists.specs.Lists.{Has};

use crate::Tasks;
use crate::desk::Desk;
use crate::shelf::ReadyTask;
use crate::task::{Spare, Task};
use crate::value::{cause_of, looked, seen};
use dice_jobs::{Earlier, JobName};
use dice_key::{KeyRef, NoMemory, Universe, ValueRef, laws_of};
use journal::{Cause, Event};
use std::alloc::Global;
use std::sync::Arc;
use versioned_graph::{Found, Graph, Why};

/// What is to be made of a key at a version, with the memory that it takes.
#[derive(Drop)]
pub enum Making<U: Universe> {
    /// Nothing: the key has a task.
    Join,
    /// A task that has ended with a value that was looked up: the value at the base.
    Match {
        event: KeyRef<U>,
        base: u64,
        task: Task<U>,
    },
    /// A task that computes the value.
    Run {
        event: KeyRef<U>,
        cause: Cause<U::Key>,
        ready: ReadyTask<U::Key>,
        task: Task<U>,
    },
    /// A task that checks an earlier value.
    Check {
        ready: ReadyTask<U::Key>,
        task: Task<U>,
    },
}

/// Makes what was prepared for a key: its task, and what is told of it. It takes no memory.
pub fn make<U: Universe>(
    desk: &mut Desk<U>,
    tasks: &mut Tasks<U>,
    graph: &mut Graph<U>,
    version: u64,
    key: &KeyRef<U>,
    making: Making<U>,
)
    requires own { IsOfKey version (arc_value key.now) making }
    requires room { CanMake U.Key.eq version (arc_value key.now) tasks.old desk.old making }
    ensures made { IsMade U.Key.eq version (arc_value key.now) tasks.old desk.old graph.old making
        tasks.new desk.new graph.new }
    ensures alone { MakesAlone U.Key.eq version (arc_value key.now) tasks.old desk.old graph.old
        tasks.new desk.new graph.new }
    ensures kept { (w : World U.Key U.Value) (W : List U.Key) (owed born : ℕ)
        → Working U.Key.eq U.meaning version W w (owed + 3) tasks.old desk.old
        → EntriesStand U.Key.eq U.meaning (reverse desk.old.events) graph.old
        → MayMake U.Key.eq U.meaning (reverse desk.old.events) version (arc_value key.now) born
        → IsMaking U.Key.eq U.meaning version (arc_value key.now) born tasks.old graph.old making
        → Working U.Key.eq U.meaning version W w owed tasks.new desk.new
        × EntriesStand U.Key.eq U.meaning (reverse desk.new.events) graph.new }
{
    laws_of::<U>();
    match making {
        Making::Join => {}
        Making::Match { event, base, task } => {
            desk.push(Event::Keep(version, event, base));
            tasks.make_ended(key, task);
            seen::<U>(graph, key, version);
        }
        Making::Run {
            event,
            cause,
            ready,
            task,
        } => {
            desk.push(Event::Start(version, event, cause));
            begin::<U>(desk, tasks, key, ready, task);
        }
        Making::Check { ready, task } => begin::<U>(desk, tasks, key, ready, task),
    }
}

/// Puts a task of a key, which is at work and ready from then on. It takes no memory.
fn begin<U: Universe>(
    desk: &mut Desk<U>,
    tasks: &mut Tasks<U>,
    key: &KeyRef<U>,
    ready: ReadyTask<U::Key>,
    task: Task<U>,
)
    requires place { has_place U.Key.eq tasks.old (arc_value key.now) ≡ true }
    requires idle { is_live U.Key.eq tasks.old (arc_value key.now) ≡ false }
    requires unready { Has desk.old.ready (place_of ready) → ⊥ }
    requires home { Has desk.old.out (place_of ready) → ⊥ }
    requires ready_room { 0 < desk.old.ready_room }
    requires live_room { 0 < desk.old.live_room }
    ensures tasks { Makes U.Key.eq (arc_value key.now) task tasks.old tasks.new }
    ensures desk { Readies (place_of ready) (with_made desk.old) desk.new }
{
    laws_of::<U>();
    desk.made();
    desk.readied(ready);
    tasks.make_reserved(key, task);
}

/// Whether there is a task, and it was not given up.
fn has_task<U: Universe>(task: Option<&Task<U>>) -> bool
    ensures { MatchBool result (HasTask (option_copied task.entry))
        (IsFree (option_copied task.entry)) }
{
    match task {
        Some(task) => !task.is_lost(),
        None => false,
    }
}

/// The name of a task that is made now.
fn name_of<U: Universe>(version: u64, key: &KeyRef<U>, born: u64) -> Result<JobName<U>, NoMemory>
    ensures { IfOk result
        (λ n. n ≡ record { version = version; key = arc_value key.now; born = born }) }
{
    Ok(JobName::new(version, Arc::try_clone(key)?, born))
}

/// Copies of the key, for the events that end its task.
fn copies_of<U: Universe>(key: &KeyRef<U>) -> Result<Spare<U>, NoMemory>
    ensures { IfOk result (AreCopies (arc_value key.now)) }
{
    let first = Arc::try_clone(key)?;
    let second = Arc::try_clone(key)?;
    Ok(Spare { first, second })
}

/// The place of the task among those that are ready.
fn ready_task<U: Universe>(version: u64, key: &KeyRef<U>) -> Result<ReadyTask<U::Key>, NoMemory>
    ensures { IfOk result (λ r. place_of r ≡ (version, arc_value key.now)) }
{
    let key = Arc::try_clone(key)?;
    Ok(ReadyTask { version, key })
}

/// What is made of a match with a value and its base.
fn prepare_match<U: Universe>(
    version: u64,
    key: &KeyRef<U>,
    born: u64,
    value: &ValueRef<U>,
    base: u64,
) -> Result<Making<U>, NoMemory>
    ensures making { IfOk result
        (IsMakingFor version (arc_value key.now) born (Matches (arc_value value.now) base)) }
    ensures own { IfOk result (IsOfKey version (arc_value key.now)) }
{
    let name = name_of::<U>(version, key, born)?;
    let event = Arc::try_clone(key)?;
    let value = Arc::try_clone(value)?;
    let task = Task::matched(name, value);
    Ok(Making::Match { event, base, task })
}

/// What is made if the value has to be computed.
fn prepare_run<U: Universe>(
    alloc: Global,
    version: u64,
    key: &KeyRef<U>,
    born: u64,
    why: Why,
) -> Result<Making<U>, NoMemory>
    requires { U.meaning.kind (arc_value key.now) ≢ Injected }
    ensures making { IfOk result (IsMakingFor version (arc_value key.now) born (Computes why)) }
    ensures own { IfOk result (IsOfKey version (arc_value key.now)) }
{
    let name = name_of::<U>(version, key, born)?;
    let spare = copies_of::<U>(key)?;
    let task = Task::run(alloc, name, spare)?;
    let event = Arc::try_clone(key)?;
    let ready = ready_task::<U>(version, key)?;
    let cause = cause_of(why);
    Ok(Making::Run {
        event,
        cause,
        ready,
        task,
    })
}

/// What is made if an earlier value has to be checked.
fn prepare_check<U: Universe>(
    alloc: Global,
    version: u64,
    key: &KeyRef<U>,
    born: u64,
    earlier: Earlier<U>,
) -> Result<Making<U>, NoMemory>
    ensures making { IfOk result (IsMakingFor version (arc_value key.now) born
        (Checks (arc_value earlier.value) (arc_value earlier.trace) earlier.base)) }
    ensures own { IfOk result (IsOfKey version (arc_value key.now)) }
{
    let name = name_of::<U>(version, key, born)?;
    let spare = copies_of::<U>(key)?;
    let task = Task::check(alloc, name, spare, earlier)?;
    let ready = ready_task::<U>(version, key)?;
    Ok(Making::Check { ready, task })
}

/// What is to be made of a key that has no task, or one that was given up, by what a look-up at
/// the version says. The key is not injected, and the journal has `born` events. It takes the
/// memory for it, and changes nothing.
fn prepare_anew<U: Universe>(
    alloc: Global,
    graph: &Graph<U>,
    version: u64,
    key: &KeyRef<U>,
    born: u64,
) -> Result<Making<U>, NoMemory>
    requires { U.meaning.kind (arc_value key.now) ≢ Injected }
    ensures making { IfOk result (IsMakingFor version (arc_value key.now) born
        (look U.meaning.is_transient (entry_at U.Key.eq graph.now (arc_value key.now)) version)) }
    ensures own { IfOk result (IsOfKey version (arc_value key.now)) }
{
    match looked::<U>(graph, key, version) {
        Found::Match(value, base) => prepare_match::<U>(version, key, born, value, base),
        Found::Compute(why) => prepare_run::<U>(alloc, version, key, born, why),
        Found::CheckDeps(value, trace, base) => {
            let value = Arc::try_clone(value)?;
            let trace = Arc::try_clone(trace)?;
            let earlier = Earlier { value, trace, base };
            prepare_check::<U>(alloc, version, key, born, earlier)
        }
    }
}

/// What is to be made of a key, which is not injected, at a version, when the journal has `born`
/// events, if this is its task, or it has none: nothing if the task was not given up, otherwise what
/// a look-up says. It takes the memory for it, and changes nothing.
pub fn prepare<U: Universe>(
    alloc: Global,
    graph: &Graph<U>,
    task: Option<&Task<U>>,
    version: u64,
    key: &KeyRef<U>,
    born: u64,
) -> Result<Making<U>, NoMemory>
    requires { U.meaning.kind (arc_value key.now) ≢ Injected }
    ensures making { IfOk result (λ m. (ps : List (U.Key × Share U.Key (Held U.Key U.Value)))
        → task_at U.Key.eq ps (arc_value key.now) ≡ option_copied task.entry
        → IsMaking U.Key.eq U.meaning version (arc_value key.now) born ps graph.now m) }
    ensures own { IfOk result (IsOfKey version (arc_value key.now)) }
{
    if has_task::<U>(task) {
        return Ok(Making::Join);
    }
    prepare_anew::<U>(alloc, graph, version, key, born)
}
