//! Transactions that are opened, and asks that are left, over the tasks of all versions.
ghost use Rattle.std.specs.Prelude.{◌≡◌, ◌<◌, ◌+◌, ◌++◌, [], ◌∷◌, ℕ, nat_eq, List, length, map, reverse, true, Some, None, is_some, IfOk, OnOk, OnErr};
ghost use Rattle.std.specs.Arc.{arc_value};
ghost use Rattle.journal.specs.declared.event.Told.TheVariants.{Open, Close, Leave, Drop};
ghost use Rattle.journal.specs.Events.{Opened, Asking as AskSeen, commits_of, open_at, open_count, live_at};
ghost use Rattle.dice_core.specs.Askings.{DropsAfter};
ghost use Rattle.dice_core.specs.Joinings.{AsksForKey};
ghost use Rattle.dice_core.specs.Cores.{table_at, has_table, core_of, Turned, IsAsBefore, KeepsTasksOf, DropsThese, CoreStands};
ghost use Rattle.versioned_graph.specs.Entries.{Stored};
ghost use Rattle.injected.specs.Seen.{Seen};
ghost use Rattle.dice_core.specs.Sessions.{SessionsSeen};

use crate::ask::ask_key;
use crate::asking::leave_promise;
use crate::close::close_asks;
use crate::sessions::{Asking, Sessions};
use crate::spare::Spare;
use dice_key::{KeyRef, NoMemory, Seed, Universe, Version, laws_of};
use dice_steps::Shared;
use dice_tasks::{Desk, Tasks};
use journal::Event;
use std::collections::HashMap;

/// Makes a table for the tasks of a version, if there is none.
fn place_table<U: Universe>(
    spare: &mut Spare<U>,
    seed: Seed,
    versions: &mut HashMap<u64, Tasks<U>>,
    version: Version,
) -> Result<(), NoMemory>
    ensures same { (v : ℕ) → table_at versions.new.entries v ≡ table_at versions.old.entries v }
    ensures stays { (v : ℕ) → has_table versions.old.entries v ≡ true
        → has_table versions.new.entries v ≡ true }
    ensures ok { OnOk result (has_table versions.new.entries version ≡ true) }
{
    laws_of::<U>();
    if versions.contains_key(&version) {
        return Ok(());
    }
    let _ = versions.insert(version, spare.take(seed))?;
    Ok(())
}

/// Opens a transaction at the newest version, and keeps room for its close. If memory is refused
/// all is as before.
pub(crate) fn open_at_newest<U: Universe>(
    spare: &mut Spare<U>,
    desk: &mut Desk<U>,
    versions: &mut HashMap<u64, Tasks<U>>,
    sessions: &mut Sessions<U>,
    newest: Version,
    by: u64,
) -> Result<u64, NoMemory>
    requires stands { (es : List (U.Key × Stored U.Key U.Value)) × (s : Seen U.Key U.Value)
        × CoreStands U.Key.eq U.meaning (core_of desk.old versions.old.entries es s sessions.old)
        × (s.last ≡ newest) }
    ensures index { IfOk result (λ t. t ≡ length desk.old.events) }
    ensures events { OnOk result (desk.new.events ≡ desk.old.events ++ Open by newest ∷ []) }
    ensures tasks { OnOk result ((es : List (U.Key × Stored U.Key U.Value)) (s : Seen U.Key U.Value)
        → KeepsTasksOf U.Key.eq (core_of desk.old versions.old.entries es s sessions.old)
        (core_of desk.new versions.new.entries es s sessions.new)) }
    ensures err { OnErr result ((es : List (U.Key × Stored U.Key U.Value)) (s : Seen U.Key U.Value)
        → IsAsBefore U.Key.eq (core_of desk.old versions.old.entries es s sessions.old)
        (core_of desk.new versions.new.entries es s sessions.new)) }
    ensures kept { OnOk result ((es : List (U.Key × Stored U.Key U.Value)) (s : Seen U.Key U.Value)
        → CoreStands U.Key.eq U.meaning (core_of desk.old versions.old.entries es s sessions.old)
        → s.last ≡ newest
        → CoreStands U.Key.eq U.meaning (core_of desk.new versions.new.entries es s sessions.new)) }
{
    laws_of::<U>();
    let index = desk.next_index()?;
    desk.reserve(sessions.owed(), 2, 0)?;
    place_table::<U>(spare, desk.seed(), versions, newest)?;
    sessions.open(index, by, newest)?;
    desk.push(Event::Open(by, newest));
    Ok(index)
}

/// Leaves an ask, and drops the tasks of its version that nobody asks for any more. It takes no
/// memory.
pub(crate) fn leave_ask<U: Universe>(
    desk: &mut Desk<U>,
    versions: &mut HashMap<u64, Tasks<U>>,
    sessions: &mut Sessions<U>,
    ask: u64,
)
    requires stands { (es : List (U.Key × Stored U.Key U.Value)) × (s : Seen U.Key U.Value)
        × CoreStands U.Key.eq U.meaning (core_of desk.old versions.old.entries es s sessions.old) }
    requires live { is_some (live_at (reverse desk.old.events) ask) ≡ true }
    ensures log { (a : AskSeen U.Key) × (o : Opened) × (ks : List U.Key)
        × (live_at (reverse desk.old.events) ask ≡ Some a)
        × (open_at (reverse desk.old.events) a.opened ≡ Some o)
        × Turned U.Key.eq U.meaning o.version versions.old.entries versions.new.entries
        (λ ps qs. DropsAfter U.Key.eq o.version (Leave a.by ask ∷ []) ks ps qs desk.old desk.new) }
    ensures kept { (es : List (U.Key × Stored U.Key U.Value)) (s : Seen U.Key U.Value)
        → CoreStands U.Key.eq U.meaning (core_of desk.old versions.old.entries es s sessions.old)
        → CoreStands U.Key.eq U.meaning (core_of desk.new versions.new.entries es s sessions.new) }
{
    laws_of::<U>();
    let Some(asking) = sessions.leave(ask) else {
        return;
    };
    let Some(session) = sessions.session(asking.opened()) else {
        return;
    };
    let version = session.version();
    let Some(tasks) = versions.get_mut(&version) else {
        return;
    };
    leave_promise::<U>(desk, tasks, version, asking.key(), asking.by(), ask);
}

/// A seat asks for a key in an open transaction; the index of the event is the name of the ask. If
/// memory is refused all is as before.
pub(crate) fn ask_in<U: Universe>(
    shared: &mut Shared<U>,
    versions: &mut HashMap<u64, Tasks<U>>,
    sessions: &mut Sessions<U>,
    by: u64,
    tx: u64,
    key: KeyRef<U>,
) -> Result<u64, NoMemory>
    requires stands { (s : Seen U.Key U.Value)
        × CoreStands U.Key.eq U.meaning (core_of shared.old.desk versions.old.entries
        shared.old.graph s sessions.old) }
    requires opened { is_some (open_at (reverse shared.old.desk.events) tx) ≡ true }
    ensures index { IfOk result (λ i. i ≡ length shared.old.desk.events) }
    ensures asked { OnOk result ((o : Opened) × (open_at (reverse shared.old.desk.events) tx
        ≡ Some o)
        × Turned U.Key.eq U.meaning o.version versions.old.entries versions.new.entries (λ ps qs.
        AsksForKey U.Key.eq U.meaning o.version by tx (arc_value key) ps qs shared.old.graph
        shared.new.graph shared.old.desk shared.new.desk)) }
    ensures err { OnErr result ((s : Seen U.Key U.Value)
        → IsAsBefore U.Key.eq (core_of shared.old.desk versions.old.entries shared.old.graph s
        sessions.old) (core_of shared.new.desk versions.new.entries shared.new.graph s
        sessions.new)) }
    ensures cells { shared.new.cells ≡ shared.old.cells }
    ensures kept { OnOk result ((s : Seen U.Key U.Value)
        → CoreStands U.Key.eq U.meaning (core_of shared.old.desk versions.old.entries
        shared.old.graph s sessions.old)
        → CoreStands U.Key.eq U.meaning (core_of shared.new.desk versions.new.entries
        shared.new.graph s sessions.new)) }
{
    laws_of::<U>();
    let Some(session) = sessions.session(tx) else {
        unreachable!();
    };
    let version = session.version();
    sessions.reserve_ask(tx)?;
    let owed = sessions.owed();
    let Some(tasks) = versions.get_mut(&version) else {
        unreachable!();
    };
    let asking = Asking::new(by, tx, key);
    let index = ask_key::<U>(shared, tasks, owed, version, &asking)?;
    sessions.ask(index, asking);
    Ok(index)
}

/// Closes a transaction: its asks go, and the tasks of its version that nobody asks for any more
/// are dropped; with the last transaction of the version all its tasks go. It takes no memory.
pub(crate) fn close_in<U: Universe>(
    desk: &mut Desk<U>,
    versions: &mut HashMap<u64, Tasks<U>>,
    sessions: &mut Sessions<U>,
    spare: &mut Spare<U>,
    tx: u64,
)
    requires stands { (es : List (U.Key × Stored U.Key U.Value)) × (s : Seen U.Key U.Value)
        × CoreStands U.Key.eq U.meaning (core_of desk.old versions.old.entries es s sessions.old) }
    requires opened { is_some (open_at (reverse desk.old.events) tx) ≡ true }
    ensures log { (o : Opened) × (ks : List U.Key) × (open_at (reverse desk.old.events) tx ≡ Some o)
        × (desk.new.events ≡ desk.old.events ++ (Close o.by tx ∷ map (Drop o.version) ks))
        × DropsThese U.Key.eq o.version (nat_eq (open_count (reverse desk.new.events) o.version) 0)
        ks versions.old.entries versions.new.entries }
    ensures kept { (es : List (U.Key × Stored U.Key U.Value)) (s : Seen U.Key U.Value)
        → CoreStands U.Key.eq U.meaning (core_of desk.old versions.old.entries es s sessions.old)
        → CoreStands U.Key.eq U.meaning (core_of desk.new versions.new.entries es s sessions.new) }
{
    laws_of::<U>();
    let Some(session) = sessions.close(tx) else {
        return;
    };
    let version = session.version();
    let Some(tasks) = versions.get_mut(&version) else {
        return;
    };
    close_asks::<U>(desk, tasks, sessions, session, version, tx);
    if sessions.open_count(version) != 0 {
        return;
    }
    spare.keep(versions.remove(&version));
}
