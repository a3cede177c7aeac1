//! Transactions that close, with the tasks of their version in hand.
ghost use Rattle.std.specs.Prelude.{◌≡◌, ◌<◌, ◌≤◌, ◌+◌, ◌-◌, ◌++◌, [], ◌∷◌, ℕ, List, length, map, reverse, nat_eq, true, false, Some, if◌then◌else◌};
ghost use Rattle.task_share.specs.Seen.{KeepsTasks};
ghost use Rattle.injected.specs.Seen.{Seen};
ghost use Rattle.journal.specs.declared.event.Told.{Told};
ghost use Rattle.journal.specs.declared.event.Told.TheVariants.{Close};
ghost use Rattle.journal.specs.Events.{Opened, open_at, open_count};
ghost use Rattle.versioned_graph.specs.Entries.{Stored};
ghost use Rattle.core_laws.specs.Desk.{World};
ghost use Rattle.dice_core.specs.Askings.{MayBeAtHand, DropsAfter};
ghost use Rattle.dice_steps.specs.AtHand.{AtHand};
ghost use Rattle.dice_core.specs.Closings.{LeftHand, ArePromised, TakesPromise, TakesPromises};
ghost use Rattle.dice_core.specs.Sessions.{has_ask, asks_in, owed, opened_of, Closing, SessionsStand};

use crate::sessions::{Session, Sessions};
use dice_key::{Universe, laws_of};
use dice_tasks::{Desk, Tasks, cascade};
use journal::Event;
use task_share::Asker;

/// Takes out one ask of a transaction that is closed, and its promise; `false` if none is left. It
/// takes no memory.
fn take_promise<U: Universe>(
    tasks: &mut Tasks<U>,
    sessions: &mut Sessions<U>,
    session: &mut Session,
) -> bool
    ensures some { result ≡ true → (R : List (Told U.Key U.Value)) (by t : ℕ)
        → Closing R by t session.old.asks sessions.old → ArePromised U.Key.eq R tasks.old
        → TakesPromise U.Key.eq R by t session.old.asks session.new.asks tasks.old tasks.new
        sessions.new }
    ensures shorter { result ≡ true → length session.new.asks < length session.old.asks }
    ensures none { result ≡ false
        → (session.old.asks ≡ []) × (sessions.new ≡ sessions.old) × (tasks.new ≡ tasks.old) }
    ensures tasks { KeepsTasks U.Key.eq tasks.old tasks.new }
    ensures owed { owed sessions.new ≤ owed sessions.old }
{
    laws_of::<U>();
    let Some(ask) = session.pop_ask() else {
        return false;
    };
    if let Some(asking) = sessions.take_ask(ask) {
        tasks.leave(asking.key(), &Asker::Promise(ask));
    }
    true
}

/// Takes out all asks of a transaction that is closed, and their promises. It takes no memory.
fn take_promises<U: Universe>(
    tasks: &mut Tasks<U>,
    sessions: &mut Sessions<U>,
    session: &mut Session,
)
    ensures all { (R : List (Told U.Key U.Value)) (by t : ℕ)
        → Closing R by t session.old.asks sessions.old → ArePromised U.Key.eq R tasks.old
        → TakesPromises U.Key.eq R by t session.old.asks tasks.old tasks.new sessions.new }
    ensures tasks { KeepsTasks U.Key.eq tasks.old tasks.new }
    ensures owed { owed sessions.new ≤ owed sessions.old }
{
    'promises: while take_promise(tasks, sessions, session) {}
}

/// Closes a transaction at a version, which was taken out of the sessions. Its asks and their
/// promises go, its Close is written, and then the tasks at work that nobody asks for any more are
/// dropped. It takes no memory.
///
/// It costs the number of the asks, and of the tasks that are dropped and of the keys that they
/// waited for.
pub(crate) fn close_asks<U: Universe>(
    desk: &mut Desk<U>,
    tasks: &mut Tasks<U>,
    sessions: &mut Sessions<U>,
    mut session: Session,
    version: u64,
    tx: u64,
)
    requires hand { MayBeAtHand U.Key.eq U.meaning version (owed sessions.old + 1) tasks.old
        desk.old }
    requires opened { open_at (reverse desk.old.events) tx
        ≡ Some (record { by = session.by; version = version }) }
    requires closing { Closing (reverse desk.old.events) session.by tx session.asks sessions.old }
    requires listed { (i : ℕ) → has_ask session.asks i ≡ asks_in (reverse desk.old.events) tx i }
    ensures log { (ks : List U.Key)
        × DropsAfter U.Key.eq version (Close session.by tx ∷ []) ks tasks.old tasks.new desk.old
        desk.new }
    ensures sessions { SessionsStand (reverse desk.new.events) sessions.new }
    ensures counts { (u : ℕ)
        → open_count (reverse desk.new.events) u
        ≡ (if nat_eq version u
        then open_count (reverse desk.old.events) u - 1
        else open_count (reverse desk.old.events) u) }
    ensures kept { (w : World U.Key U.Value) (es : List (U.Key × Stored U.Key U.Value))
        (s : Seen U.Key U.Value)
        → AtHand U.Key.eq U.meaning version w (owed sessions.old + 1) tasks.old desk.old es s
        → LeftHand U.Key.eq U.meaning version w (owed sessions.new) tasks.new desk.new es s }
{
    laws_of::<U>();
    let by = session.by();
    take_promises(tasks, sessions, &mut session);
    desk.push(Event::Close(by, tx));
    cascade::<U>(desk, tasks, version);
}
