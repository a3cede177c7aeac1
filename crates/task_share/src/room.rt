//! Room made ahead: places of keys, and room for what asks for a key and what it waits for.
ghost use Rattle.std.specs.Prelude.{◌≡◌, ◌<◌, ◌≤◌, true, false, Some, map, slice_get, vec_capacity, IfOk, OnOk};
ghost use Rattle.std.specs.Arc.{arc_value};
ghost use Rattle.dice_key.specs.Lawful.{IsEquality};
ghost use Rattle.task_share.specs.Seen.{has_place, promise_room, asker_room, wait_room};
ghost use Rattle.task_share.specs.Listed.{shares_of, names_of, IsLinked, IsListed, KeepsListed, IsKept};

use crate::place::{Place, vacant};
use dice_key::{NoMemory, Seed};
use indexmap::IndexMap;
use std::alloc::Global;
use std::hash::Hash;
use std::sync::Arc;

/// Makes a place for a key that has none, or gives the key to its place, if that has neither task
/// nor key. It gives the number of the key.
pub fn reserve_place<K: Eq + Hash + Drop, T: Drop>(
    places: &mut IndexMap<Arc<K>, Place<K, T>, Seed>,
    candidates: &mut Vec<Arc<K>>,
    alloc: Global,
    key: &Arc<K>,
) -> Result<usize, NoMemory>
    requires equality { IsEquality K.eq }
    requires linked { IsLinked K.eq places.old.entries }
    requires listed { IsListed K.eq (shares_of places.old.entries)
        (map arc_value candidates.old.items) (vec_capacity candidates.old) }
    ensures linked { IsLinked K.eq places.new.entries }
    ensures listed { IsListed K.eq (shares_of places.new.entries)
        (map arc_value candidates.new.items) (vec_capacity candidates.new) }
    ensures kept { IsKept K.eq (shares_of places.old.entries) (shares_of places.new.entries) }
    ensures named { IfOk result
        (λ n. slice_get (names_of places.new.entries) n ≡ Some (arc_value key.now)) }
    ensures ok { OnOk result
        (has_place K.eq (shares_of places.new.entries) (arc_value key.now) ≡ true) }
{
    if let Some(at) = places.get_index_of(key) {
        reserve_there(places, at, key)?;
        return Ok(at);
    }
    let at = places.len();
    candidates.reserve(at + 1)?;
    let name = Arc::try_clone(key)?;
    let held = Arc::try_clone(key)?;
    drop(places.insert(held, vacant(alloc, Some(name)))?);
    Ok(at)
}

/// Makes the place of a number ready for a task of its key.
fn reserve_there<K: Eq + Hash + Drop, T: Drop>(
    places: &mut IndexMap<Arc<K>, Place<K, T>, Seed>,
    at: usize,
    key: &Arc<K>,
) -> Result<(), NoMemory>
    requires equality { IsEquality K.eq }
    requires linked { IsLinked K.eq places.old.entries }
    requires named { slice_get (names_of places.old.entries) at ≡ Some (arc_value key.now) }
    ensures linked { IsLinked K.eq places.new.entries }
    ensures names { names_of places.new.entries ≡ names_of places.old.entries }
    ensures listed { KeepsListed K.eq (shares_of places.old.entries)
        (shares_of places.new.entries) }
    ensures kept { IsKept K.eq (shares_of places.old.entries) (shares_of places.new.entries) }
    ensures ok { OnOk result
        (has_place K.eq (shares_of places.new.entries) (arc_value key.now) ≡ true) }
{
    if !takes_task_at(places, at) {
        let name = Arc::try_clone(key)?;
        name_place(places, at, name);
    }
    Ok(())
}

/// Whether a task may be put to the key of a number: there is one, or the place has its key.
fn takes_task_at<K: Eq + Hash + Drop, T: Drop>(
    places: &IndexMap<Arc<K>, Place<K, T>, Seed>,
    at: usize,
) -> bool
    requires equality { IsEquality K.eq }
    requires linked { IsLinked K.eq places.now.entries }
    ensures { (k : K) → slice_get (names_of places.now.entries) at ≡ Some k
        → result ≡ has_place K.eq (shares_of places.now.entries) k }
{
    match places.get_index(at) {
        Some((_, place)) => place.task.is_some() || place.name.is_some(),
        None => false,
    }
}

/// Gives the key to its place, which is given by number and has neither task nor key.
fn name_place<K: Eq + Hash + Drop, T: Drop>(
    places: &mut IndexMap<Arc<K>, Place<K, T>, Seed>,
    at: usize,
    name: Arc<K>,
)
    requires equality { IsEquality K.eq }
    requires linked { IsLinked K.eq places.old.entries }
    requires named { slice_get (names_of places.old.entries) at ≡ Some (arc_value name) }
    requires free { has_place K.eq (shares_of places.old.entries) (arc_value name) ≡ false }
    ensures linked { IsLinked K.eq places.new.entries }
    ensures names { names_of places.new.entries ≡ names_of places.old.entries }
    ensures listed { KeepsListed K.eq (shares_of places.old.entries)
        (shares_of places.new.entries) }
    ensures kept { IsKept K.eq (shares_of places.old.entries) (shares_of places.new.entries) }
    ensures ok { has_place K.eq (shares_of places.new.entries) (arc_value name) ≡ true }
{
    let Some(place) = places.get_index_mut(at) else {
        unreachable!();
    };
    place.name = Some(name);
}

/// Makes room for one more promise of a key that has a place, which is given by number.
pub fn reserve_promise<K: Eq + Hash + Drop, T: Drop>(
    places: &mut IndexMap<Arc<K>, Place<K, T>, Seed>,
    at: usize,
) -> Result<(), NoMemory>
    requires equality { IsEquality K.eq }
    requires linked { IsLinked K.eq places.old.entries }
    ensures linked { IsLinked K.eq places.new.entries }
    ensures listed { KeepsListed K.eq (shares_of places.old.entries)
        (shares_of places.new.entries) }
    ensures kept { IsKept K.eq (shares_of places.old.entries) (shares_of places.new.entries) }
    ensures ok { OnOk result ((k : K) → slice_get (names_of places.old.entries) at ≡ Some k
        → has_place K.eq (shares_of places.old.entries) k ≡ true
        → 0 < promise_room K.eq (shares_of places.new.entries) k) }
{
    let Some(place) = places.get_index_mut(at) else {
        return Ok(());
    };
    place.promises.reserve()?;
    Ok(())
}

/// Makes room for one more asking task of a key that has a place, which is given by number.
pub fn reserve_asker<K: Eq + Hash + Drop, T: Drop>(
    places: &mut IndexMap<Arc<K>, Place<K, T>, Seed>,
    at: usize,
) -> Result<(), NoMemory>
    requires equality { IsEquality K.eq }
    requires linked { IsLinked K.eq places.old.entries }
    ensures linked { IsLinked K.eq places.new.entries }
    ensures listed { KeepsListed K.eq (shares_of places.old.entries)
        (shares_of places.new.entries) }
    ensures kept { IsKept K.eq (shares_of places.old.entries) (shares_of places.new.entries) }
    ensures ok { OnOk result ((k : K) → slice_get (names_of places.old.entries) at ≡ Some k
        → has_place K.eq (shares_of places.old.entries) k ≡ true
        → 0 < asker_room K.eq (shares_of places.new.entries) k) }
{
    let Some(place) = places.get_index_mut(at) else {
        return Ok(());
    };
    place.askers.reserve(1)?;
    Ok(())
}

/// Makes room for more waits of a key that has a place, which is given by number.
pub fn reserve_waits<K: Eq + Hash + Drop, T: Drop>(
    places: &mut IndexMap<Arc<K>, Place<K, T>, Seed>,
    at: usize,
    additional: usize,
) -> Result<(), NoMemory>
    requires equality { IsEquality K.eq }
    requires linked { IsLinked K.eq places.old.entries }
    ensures linked { IsLinked K.eq places.new.entries }
    ensures listed { KeepsListed K.eq (shares_of places.old.entries)
        (shares_of places.new.entries) }
    ensures kept { IsKept K.eq (shares_of places.old.entries) (shares_of places.new.entries) }
    ensures ok { OnOk result ((k : K) → slice_get (names_of places.old.entries) at ≡ Some k
        → has_place K.eq (shares_of places.old.entries) k ≡ true
        → additional ≤ wait_room K.eq (shares_of places.new.entries) k) }
{
    let Some(place) = places.get_index_mut(at) else {
        return Ok(());
    };
    place.waits.reserve(additional)?;
    Ok(())
}
