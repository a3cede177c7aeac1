//! Tasks that go on, since the last key that they waited for has a value.
ghost use Rattle.std.specs.Prelude.{◌≡◌, ◌<◌, ◌≤◌, ◌∷◌, ℕ, List, length, reverse, false, Some, IfOk};
ghost use Rattle.std.specs.Arc.{arc_value};
ghost use Rattle.task_share.specs.Asked.{Tasked};
ghost use Rattle.task_share.specs.Numbers.{key_at, KeepsNumbers};
ghost use Rattle.task_share.specs.Seen.{task_at, asks};
ghost use Rattle.core_laws.specs.Tasks.{IsReady};
ghost use Rattle.core_laws.specs.Desk.{World};
ghost use Rattle.dice_tasks.specs.Helds.{Held, FollowsOn, held_of};
ghost use Rattle.dice_tasks.specs.Endings.{AreTasked};
ghost use Rattle.dice_tasks.specs.Hands.{Working};
ghost use Rattle.dice_tasks.specs.Waitings.{IsTurned, WakesOne, MayWake};
ghost use Rattle.dice_steps.specs.Wokens.{WakesSo};
ghost use Rattle.lists.specs.Lists.{Has};

use dice_key::{KeyRef, NoMemory, Universe, laws_of};
use dice_tasks::{Desk, Next, ReadyTask, Tasks};
use std::marker::Model;
use std::mem;
use std::sync::Arc;

/// A task that goes on, since the last key that it waited for has a value: its key, and what it
/// goes on with, made ahead.
#[derive(Drop)]
pub(crate) struct Woken<U: Universe> {
    ready: ReadyTask<U::Key>,
    next: Next<U>,
}

impl<U: Universe> Model for Woken<U> {
    ghost use Rattle.dice_tasks.specs.Shelves.{place_of};
    ghost use Rattle.dice_tasks.specs.Waitings.{Wakes};

    ghost Value = { Wakes U.Key U.Value };

    ghost view = { λ w. record { place = place_of w.ready; ahead = w.next } };
}

impl<U: Universe> Woken<U> {
    /// The task of a key at a version, with what it goes on with.
    pub(crate) fn new(version: u64, key: &KeyRef<U>, next: Next<U>) -> Result<Woken<U>, NoMemory>
        ensures { IfOk result
            (λ w. w ≡ record { place = (version, arc_value key.now); ahead = next }) }
    {
        let key = Arc::try_clone(key)?;
        let ready = ReadyTask { version, key };
        Ok(Woken { ready, next })
    }
}

/// Wakes the tasks that waited for a key alone, whose task has ended with a value: they are ready
/// again. All others that asked for the key wait on, for other keys. It takes no memory.
///
/// It costs the number of tasks that asked for the key.
pub(crate) fn wake<U: Universe>(
    desk: &mut Desk<U>,
    tasks: &mut Tasks<U>,
    key: &KeyRef<U>,
    woken: Vec<Woken<U>>,
)
    requires may { (v : ℕ) × (W : List U.Key) × (w : World U.Key U.Value) × (owed : ℕ)
        × Working U.Key.eq U.meaning v (arc_value key.now ∷ W) w owed tasks.old desk.old
        × MayWake U.Key.eq U.meaning (reverse desk.old.events) v (arc_value key.now) woken.items
        tasks.old }
    requires room { length woken.items ≤ desk.old.ready_room }
    ensures events { desk.new.events ≡ desk.old.events }
    ensures woken { WakesSo U.Key.eq (arc_value key.now) woken.items tasks.old tasks.new desk.old
        desk.new }
    ensures told { (j : U.Key) → asks U.Key.eq tasks.new (arc_value key.now) (Tasked j) ≡ false }
    ensures tasked { AreTasked U.Key.eq tasks.old → AreTasked U.Key.eq tasks.new }
    ensures kept { (v : ℕ) (W : List U.Key) (w : World U.Key U.Value) (owed : ℕ)
        → Working U.Key.eq U.meaning v (arc_value key.now ∷ W) w owed tasks.old desk.old
        → MayWake U.Key.eq U.meaning (reverse desk.old.events) v (arc_value key.now) woken.items
        tasks.old → Working U.Key.eq U.meaning v W w owed tasks.new desk.new }
{
    laws_of::<U>();
    let Some(number) = tasks.number(key) else {
        unreachable!();
    };
    let mut rest = woken;
    'ready: while let Some(woken) = rest.pop() {
        wake_one::<U>(desk, tasks, number, woken);
    }
    'others: while let Some(asker) = tasks.take_asker_numbered(number) {
        mem::drop(asker);
    }
}

/// Wakes one task that waited for a key, which is given by its number in the table. It takes no
/// memory.
fn wake_one<U: Universe>(desk: &mut Desk<U>, tasks: &mut Tasks<U>, asked: usize, woken: Woken<U>)
    requires asked { (k : U.Key) × (key_at tasks.old asked ≡ Some k) }
    requires waits { (h : Held U.Key U.Value) × (task_at U.Key.eq tasks.old woken.place.1 ≡ Some h)
        × FollowsOn h woken.ahead }
    requires ready { Has desk.old.ready woken.place → ⊥ }
    requires out { Has desk.old.out woken.place → ⊥ }
    requires room { 0 < desk.old.ready_room }
    ensures woken { (k : U.Key) → key_at tasks.old asked ≡ Some k
        → WakesOne U.Key.eq k woken tasks.old tasks.new desk.old desk.new }
    ensures numbers { KeepsNumbers tasks.old tasks.new }
{
    laws_of::<U>();
    let Woken { ready, next } = woken;
    let Some(number) = tasks.number(&ready.key) else {
        unreachable!();
    };
    tasks.leave_numbered(asked, number);
    resume::<U>(tasks, number, next);
    desk.readied(ready);
}

/// The task of the key of a number goes on. It takes no memory.
fn resume<U: Universe>(tasks: &mut Tasks<U>, number: usize, next: Next<U>)
    requires { (k : U.Key) × (h : Held U.Key U.Value) × (key_at tasks.old number ≡ Some k)
        × (task_at U.Key.eq tasks.old k ≡ Some h) × FollowsOn h next }
    ensures turned { (k : U.Key) → key_at tasks.old number ≡ Some k → (h : Held U.Key U.Value)
        × IsTurned U.Key.eq k h (held_of next.job IsReady) tasks.old tasks.new }
    ensures numbers { KeepsNumbers tasks.old tasks.new }
{
    laws_of::<U>();
    let Some(task) = tasks.task_mut_numbered(number) else {
        unreachable!();
    };
    task.resume(next);
}
