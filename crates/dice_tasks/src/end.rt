//! Tasks that end, and tasks that nobody asks for any more.
ghost use Rattle.std.specs.Prelude.{◌≡◌, ◌⊎◌, ℕ, List, [], ◌∷◌, true, false, map, reverse, Some, IfSome, IfNone};
ghost use Rattle.std.specs.Arc.{arc_value};
ghost use Rattle.dice_key.specs.Meaning.{Answered, Ends};
ghost use Rattle.dice_model.specs.Asks.{IsTrace};
ghost use Rattle.task_share.specs.Asked.{IsDone, Tasked};
ghost use Rattle.task_share.specs.Seen.{asked_of, asks, task_at, is_live, KeepsTasks, KeepsAsks, KeepsRoom};
ghost use Rattle.journal.specs.declared.event.Told.TheVariants.{Keep, End, Cyclic, Lost};
ghost use Rattle.journal.specs.Events.{commits_of, ended_at};
ghost use Rattle.journal.specs.Tell.{told};
ghost use Rattle.core_laws.specs.Tasks.{Outcome as Came, WithValue, WithCycle, WithNothing, Works, IsOut};
ghost use Rattle.core_laws.specs.Desk.{World, ready_in, out_in};
ghost use Rattle.dice_tasks.specs.Helds.{Held, came};
ghost use Rattle.dice_tasks.specs.Loads.{AreCopies};
ghost use Rattle.dice_tasks.specs.Hands.{Working, Cleaning};
ghost use Rattle.dice_tasks.specs.Endings.{Quits, Knows, DropsTask, DropsTasks, EndsTask, TellsEnd, ListsEnd, path_of, HasOwners, AreGiven, IsEnough, told_end, ReachesPath, EndsAsker, HasTold, EndsTasks, EndWithAskers, AreTasked, ends_so};
ghost use Rattle.lists.specs.Lists.{Has};
ghost use Rattle.dice_jobs.specs.Jobs.{Checks, Computes};

use crate::Tasks;
use crate::desk::Desk;
use crate::owners::Owners;
use crate::task::{Spare, Task};
use dice_key::{KeyRef, Path, Universe, ValueRef, laws_of};
use journal::Event;
use std::mem;
use std::sync::Arc;
use task_state::Outcome;

/// How tasks end that are given up together.
#[derive(Drop)]
pub enum How<K> {
    /// Since memory was refused.
    Lost,
    /// Since their keys reach this cycle, of whose path each is given an owner.
    Cycle(Owners<K>),
}

/// Takes a task that is to end off the ready tasks and off those that are out.
fn quit<U: Universe>(desk: &mut Desk<U>, task: &Task<U>, version: u64, key: &KeyRef<U>)
    requires ready { ready_in task.now.standing ≡ true
        → Has desk.old.ready (version, arc_value key.now) }
    requires out { out_in task.now.standing ≡ true → Has desk.old.out (version, arc_value key.now) }
    ensures { Quits task.now.standing (version, arc_value key.now) desk.old desk.new }
{
    if task.is_ready() {
        desk.unreadied(version, key);
    } else if task.is_out() {
        desk.left(version, key);
    }
}

/// Drops one task at work that nobody asks for; `false` if there is none. It takes no memory.
fn drop_one<U: Universe>(desk: &mut Desk<U>, tasks: &mut Tasks<U>, version: u64) -> bool
    requires known { Knows U.Key.eq version tasks.old desk.old }
    ensures some { result ≡ true
        → (k : U.Key) × (h : Held U.Key U.Value)
        × DropsTask U.Key.eq version k h tasks.old tasks.new desk.old desk.new }
    ensures none { result ≡ false
        → (desk.new ≡ desk.old) × IsDone (asked_of U.Key.eq tasks.old)
        × KeepsTasks U.Key.eq tasks.old tasks.new × KeepsAsks U.Key.eq tasks.old tasks.new
        × KeepsRoom U.Key.eq tasks.old tasks.new }
    ensures kept { result ≡ true → (w : World U.Key U.Value) (owed : ℕ)
        → Cleaning U.Key.eq U.meaning version w owed tasks.old desk.old
        → ended_at (reverse desk.old.events) ≡ Some version
        → Cleaning U.Key.eq U.meaning version w owed tasks.new desk.new
        × (ended_at (reverse desk.new.events) ≡ Some version) }
{
    laws_of::<U>();
    let Some((key, task)) = tasks.next_unasked() else {
        return false;
    };
    quit(desk, &task, version, &key);
    desk.ended();
    desk.push(Event::Drop(version, key));
    mem::drop(task);
    true
}

/// Drops, one after the other, the tasks at work that nobody asks for, until there is none. It
/// takes no memory.
///
/// Those that a promise still reaches stay (`task_share::drops_unheld`). It costs the number of
/// tasks that it drops and of the keys that they waited for.
pub fn cascade<U: Universe>(desk: &mut Desk<U>, tasks: &mut Tasks<U>, version: u64)
    requires cleaning { (w : World U.Key U.Value) × (owed : ℕ)
        × Cleaning U.Key.eq U.meaning version w owed tasks.old desk.old }
    requires after { ended_at (reverse desk.old.events) ≡ Some version }
    ensures dropped { (ks : List U.Key)
        × DropsTasks U.Key.eq version ks tasks.old tasks.new desk.old desk.new }
    ensures done { IsDone (asked_of U.Key.eq tasks.new) }
    ensures after { ended_at (reverse desk.new.events) ≡ Some version }
    ensures tasked { AreTasked U.Key.eq tasks.old → AreTasked U.Key.eq tasks.new }
    ensures kept { (w : World U.Key U.Value) (owed : ℕ)
        → Cleaning U.Key.eq U.meaning version w owed tasks.old desk.old
        → Working U.Key.eq U.meaning version [] w owed tasks.new desk.new }
{
    laws_of::<U>();
    'drops: while drop_one(desk, tasks, version) {}
}

/// Ends the task at work of a key, which asks for nothing any more, and gives the copies of its
/// key. Its askers stay. It takes no memory.
fn end_task<U: Universe>(
    desk: &mut Desk<U>,
    tasks: &mut Tasks<U>,
    version: u64,
    key: &KeyRef<U>,
    outcome: Outcome<U::Key, U::Value>,
) -> Option<Spare<U>>
    requires known { Knows U.Key.eq version tasks.old desk.old }
    requires live { is_live U.Key.eq tasks.old (arc_value key.now) ≡ true }
    ensures ended { (h : Held U.Key U.Value)
        × EndsTask U.Key.eq version (arc_value key.now) h (came outcome) tasks.old tasks.new
        desk.old desk.new }
    ensures spare { IfSome result (AreCopies (arc_value key.now)) }
    ensures some { IfNone result ⊥ }
{
    laws_of::<U>();
    let number = tasks.number(key)?;
    let task = tasks.task_mut_numbered(number)?;
    quit(desk, task, version, key);
    let spare = task.end(outcome);
    tasks.ended_numbered(number);
    desk.ended();
    spare
}

/// Ends the task at work of a key with its value, and tells it by this event, an End or a Keep. Its
/// askers are still to be told. It takes no memory.
pub fn end_value<U: Universe>(
    desk: &mut Desk<U>,
    tasks: &mut Tasks<U>,
    version: u64,
    key: &KeyRef<U>,
    event: Event<U::Key, U::Value>,
    value: ValueRef<U>,
)
    requires known { Knows U.Key.eq version tasks.old desk.old }
    requires live { is_live U.Key.eq tasks.old (arc_value key.now) ≡ true }
    ensures ended { (h : Held U.Key U.Value)
        × TellsEnd U.Key.eq version (arc_value key.now) h (WithValue (arc_value value)) (told event)
        tasks.old tasks.new desk.old desk.new }
    ensures tasked { AreTasked U.Key.eq tasks.old → AreTasked U.Key.eq tasks.new }
    ensures computed { (w : World U.Key U.Value) (W : List U.Key) (owed : ℕ)
        (h : Held U.Key U.Value) (A : List (Answered U.Key U.Value))
        → Working U.Key.eq U.meaning version W w owed tasks.old desk.old
        → told event ≡ End version (arc_value key.now)
        → task_at U.Key.eq tasks.old (arc_value key.now) ≡ Some h
        → h.standing ≡ Works Computes IsOut A
        → U.meaning.next (arc_value key.now) A version ≡ Ends (arc_value value)
        → Working U.Key.eq U.meaning version (arc_value key.now ∷ W) w owed tasks.new desk.new
        × IsTrace U.Key.eq U.meaning (commits_of (reverse desk.old.events)) version
        (arc_value key.now) A (arc_value value) }
    ensures checked { (w : World U.Key U.Value) (W : List U.Key) (owed : ℕ) (h : Held U.Key U.Value)
        (T A : List (Answered U.Key U.Value)) (base : ℕ)
        → Working U.Key.eq U.meaning version W w owed tasks.old desk.old
        → told event ≡ Keep version (arc_value key.now) base
        → task_at U.Key.eq tasks.old (arc_value key.now) ≡ Some h
        → h.standing ≡ Works (Checks (arc_value value) T base) IsOut A
        → map (λ a. a.values) A ≡ map (λ a. a.values) T
        → Working U.Key.eq U.meaning version (arc_value key.now ∷ W) w owed tasks.new desk.new
        × IsTrace U.Key.eq U.meaning (commits_of (reverse desk.old.events)) version
        (arc_value key.now) A (arc_value value) }
{
    laws_of::<U>();
    end_task(desk, tasks, version, key, Outcome::Value(value));
    desk.push(event);
}

/// Ends the task at work of a key as lost, and puts the key on the list of those whose askers are
/// still to be told. It takes no memory.
fn end_lost<U: Universe>(desk: &mut Desk<U>, tasks: &mut Tasks<U>, version: u64, key: &KeyRef<U>)
    requires known { Knows U.Key.eq version tasks.old desk.old }
    requires live { is_live U.Key.eq tasks.old (arc_value key.now) ≡ true }
    ensures ended { (h : Held U.Key U.Value)
        × ListsEnd U.Key.eq version (arc_value key.now) h WithNothing
        (Lost version (arc_value key.now)) tasks.old tasks.new desk.old desk.new }
{
    let Some(Spare { first, second }) = end_task(desk, tasks, version, key, Outcome::Lost) else {
        return;
    };
    desk.push(Event::Lost(version, first));
    desk.push_ended(second);
}

/// Ends the task at work of a key with a cycle, and puts the key on the list of those whose askers
/// are still to be told. It takes no memory.
fn end_cyclic<U: Universe>(
    desk: &mut Desk<U>,
    tasks: &mut Tasks<U>,
    version: u64,
    key: &KeyRef<U>,
    path: Arc<Path<U::Key>>,
)
    requires known { Knows U.Key.eq version tasks.old desk.old }
    requires live { is_live U.Key.eq tasks.old (arc_value key.now) ≡ true }
    ensures ended { (h : Held U.Key U.Value)
        × ListsEnd U.Key.eq version (arc_value key.now) h (WithCycle (arc_value path))
        (Cyclic version (arc_value key.now)) tasks.old tasks.new desk.old desk.new }
{
    let Some(Spare { first, second }) = end_task(desk, tasks, version, key, Outcome::Cycle(path))
    else {
        return;
    };
    desk.push(Event::Cyclic(version, first));
    desk.push_ended(second);
}

/// Ends the task at work of a key as is said, and puts the key on the list of those whose askers
/// are still to be told. It takes no memory.
fn end_one<U: Universe>(
    desk: &mut Desk<U>,
    tasks: &mut Tasks<U>,
    version: u64,
    key: &KeyRef<U>,
    how: &mut How<U::Key>,
)
    requires known { Knows U.Key.eq version tasks.old desk.old }
    requires live { is_live U.Key.eq tasks.old (arc_value key.now) ≡ true }
    requires owner { HasOwners 1 how.old }
    ensures ended { (h : Held U.Key U.Value) × (o : Came U.Key U.Value)
        × (o ≡ ends_so (path_of how.old))
        × ListsEnd U.Key.eq version (arc_value key.now) h o (told_end version (arc_value key.now) o)
        tasks.old tasks.new desk.old desk.new }
    ensures given { AreGiven 1 how.old how.new }
{
    match how {
        How::Lost => end_lost(desk, tasks, version, key),
        How::Cycle(owners) => end_cyclic(desk, tasks, version, key, owners.give()),
    }
}

/// Ends a task that asks for the last key on the list, or takes this key off if no task does;
/// `false` if the list is empty.
fn tell_one<U: Universe>(
    desk: &mut Desk<U>,
    tasks: &mut Tasks<U>,
    version: u64,
    how: &mut How<U::Key>,
) -> bool
    requires known { Knows U.Key.eq version tasks.old desk.old }
    requires owner { (q j : U.Key) → Has desk.old.ended q
        → asks U.Key.eq tasks.old q (Tasked j) ≡ true → HasOwners 1 how.old }
    ensures some { result ≡ true
        → (EndsAsker U.Key.eq version (path_of how.old) tasks.old tasks.new desk.old desk.new
        × AreGiven 1 how.old how.new)
        ⊎ (HasTold U.Key.eq tasks.old tasks.new desk.old desk.new × (how.new ≡ how.old)) }
    ensures none { result ≡ false
        → (desk.old.ended ≡ []) × (desk.new ≡ desk.old) × (tasks.new ≡ tasks.old) }
{
    laws_of::<U>();
    let Some(last) = desk.last_ended() else {
        return false;
    };
    match tasks.take_asker(last) {
        Some(asker) => {
            end_one(desk, tasks, version, &asker, how);
            true
        }
        None => {
            desk.pop_ended();
            true
        }
    }
}

/// Ends the task at work of a key, each task that asks for it, each that asks for one of these, and
/// so on: as lost, or with a cycle that the key reaches, of whose path there is an owner for each
/// of them. It takes no memory.
///
/// It costs the number of tasks that it ends and of the keys that they waited for.
pub fn end_all<U: Universe>(
    desk: &mut Desk<U>,
    tasks: &mut Tasks<U>,
    version: u64,
    key: &KeyRef<U>,
    how: How<U::Key>,
)
    requires working { (w : World U.Key U.Value) × (owed : ℕ)
        × Working U.Key.eq U.meaning version [] w owed tasks.old desk.old }
    requires live { is_live U.Key.eq tasks.old (arc_value key.now) ≡ true }
    requires ended { desk.old.ended ≡ [] }
    requires enough { IsEnough U.Key.eq tasks.old (arc_value key.now) how }
    requires reached { ReachesPath U.Key.eq U.meaning (path_of how)
        (commits_of (reverse desk.old.events)) version (arc_value key.now) }
    ensures ends { (es : List (U.Key × Came U.Key U.Value))
        × EndsTasks U.Key.eq version (path_of how) (arc_value key.now) es tasks.old tasks.new
        desk.old desk.new × EndWithAskers U.Key.eq es tasks.old
        × Has es (arc_value key.now, ends_so (path_of how)) }
    ensures ended { desk.new.ended ≡ [] }
    ensures tasked { AreTasked U.Key.eq tasks.old → AreTasked U.Key.eq tasks.new }
    ensures kept { (w : World U.Key U.Value) (owed : ℕ)
        → Working U.Key.eq U.meaning version [] w owed tasks.old desk.old
        → Working U.Key.eq U.meaning version [] w owed tasks.new desk.new }
{
    laws_of::<U>();
    let mut rest = how;
    end_one(desk, tasks, version, key, &mut rest);
    'askers: while tell_one(desk, tasks, version, &mut rest) {}
}
