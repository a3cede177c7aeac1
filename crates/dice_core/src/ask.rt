//! Keys that are asked for, with the tasks of their version in hand.
ghost use Rattle.std.specs.Prelude.{◌≡◌, ◌≢◌, ◌<◌, ◌+◌, ℕ, length, reverse, true, false, OnOk, OnErr, IfOk};
ghost use Rattle.std.specs.Arc.{arc_value};
ghost use Rattle.dice_key.specs.declared.universe.Kind.TheVariants.{Injected};
ghost use Rattle.dice_core.specs.Joinings.{KeepsAtHand, AsksForKey, IsOpenAt, MayBeWith, OwesOneMore};

use crate::sessions::Asking;
use dice_key::{KeyRef, Kind, NoMemory, Universe, laws_of};
use dice_steps::Shared;
use dice_tasks::{Tasks, make, prepare};

/// Whether the key is injected.
fn is_injected<U: Universe>(universe: &U, key: &KeyRef<U>) -> bool
    ensures yes { result ≡ true → U.meaning.kind (arc_value key.now) ≡ Injected }
    ensures no { result ≡ false → U.meaning.kind (arc_value key.now) ≢ Injected }
{
    match universe.kind(key) {
        Kind::Injected => true,
        _ => false,
    }
}

/// A seat asks for a key at a version, in an open transaction. If the key is not injected the ask
/// is a promise of it, and if it has no task, or one that was given up, a task is made. The result
/// is the index of the Ask. If memory is refused all is as before.
///
/// It costs a look-up or a few.
pub(crate) fn ask_key<U: Universe>(
    shared: &mut Shared<U>,
    tasks: &mut Tasks<U>,
    owed: usize,
    version: u64,
    asking: &Asking<U>,
) -> Result<u64, NoMemory>
    requires hand { MayBeWith U.Key.eq U.meaning version owed tasks.old shared.old.desk
        shared.old.graph }
    requires opened { IsOpenAt (reverse shared.old.desk.events) version asking.now.opened }
    ensures index { IfOk result (λ n. n ≡ length shared.old.desk.events) }
    ensures asked { OnOk result (AsksForKey U.Key.eq U.meaning version asking.now.by
        asking.now.opened asking.now.key tasks.old tasks.new shared.old.graph shared.new.graph
        shared.old.desk shared.new.desk) }
    ensures kept { OnOk result (OwesOneMore U.Key.eq U.meaning version owed tasks.old
        shared.old.desk shared.old.graph tasks.new shared.new.desk shared.new.graph) }
    ensures err { OnErr result (KeepsAtHand U.Key.eq tasks.old tasks.new shared.old.desk
        shared.new.desk) }
    ensures graph { OnErr result (shared.new.graph ≡ shared.old.graph) }
    ensures cells { shared.new.cells ≡ shared.old.cells }
{
    laws_of::<U>();
    let key = asking.key();
    let index = shared.desk.next_index()?;
    shared.desk.reserve(owed, 3, 1)?;
    let told = asking.told()?;
    if is_injected::<U>(&*shared.universe, key) {
        shared.desk.push(told);
        return Ok(index);
    }
    tasks.reserve_promise(key)?;
    let task = tasks.task(key);
    let making = prepare(shared.alloc, &shared.graph, task, version, key, index + 1)?;
    shared.desk.push(told);
    tasks.add_promise(key, index);
    make(
        &mut shared.desk,
        tasks,
        &mut shared.graph,
        version,
        key,
        making,
    );
    Ok(index)
}
