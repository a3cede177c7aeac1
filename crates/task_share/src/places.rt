//! The places of a table, and the candidates among their keys.
ghost use Rattle.std.specs.Prelude.{◌≡◌, ◌<◌, ◌≤◌, ◌⊎◌, ◌&&◌, ◌||◌, not, nat_eq, ℕ, List, [], true, false, Some, map, length, slice_get, vec_capacity, IfSome, IfNone, OnOk, OnErr};
ghost use Rattle.std.specs.Arc.{arc_value};
ghost use Rattle.std.specs.List.{list_any};
ghost use Rattle.std.specs.Map.{values_of};
ghost use Rattle.dice_key.specs.Lawful.{IsEquality};
ghost use Rattle.task_share.specs.Asked.{By, Promised, Tasked, is_by};
ghost use Rattle.task_share.specs.Seen.{asks, waits_at, ask_count, has_place, promise_room, asker_room, wait_room};
ghost use Rattle.task_share.specs.Listed.{shares_of, names_of, AreNumbered, IsLinked, IsListed, KeepsListed, IsChanged, IsChangedAt, Turns, Joined, Left, Stays, UsesRoom};

use crate::place::{Place, settle};
use dice_key::{NoMemory, Seed};
use indexmap::IndexMap;
use small_map::SmallMap;
use std::alloc::Global;
use std::hash::Hash;
use std::mem;
use std::sync::Arc;

/// Takes a promise away from a key.
pub fn leave_promise<K: Eq + Hash + Drop, T: Drop>(
    places: &mut IndexMap<Arc<K>, Place<K, T>, Seed>,
    candidates: &mut Vec<Arc<K>>,
    key: &Arc<K>,
    number: u64,
)
    requires equality { IsEquality K.eq }
    requires linked { IsLinked K.eq places.old.entries }
    requires listed { IsListed K.eq (shares_of places.old.entries)
        (map arc_value candidates.old.items) (vec_capacity candidates.old) }
    ensures linked { IsLinked K.eq places.new.entries }
    ensures listed { IsListed K.eq (shares_of places.new.entries)
        (map arc_value candidates.new.items) (vec_capacity candidates.new) }
    ensures changed { IsChanged K.eq (arc_value key.now)
        (λ p r. Left K.eq (Promised number) p r × UsesRoom 0 0 0 p r) (shares_of places.old.entries)
        (shares_of places.new.entries) }
{
    let Some(place) = places.get_mut(key) else {
        return;
    };
    place.promises.swap_remove(number);
    settle(place, candidates);
}

/// Takes an asking task away from a key, both by number.
pub fn leave_task<K: Eq + Hash + Drop, T: Drop>(
    places: &mut IndexMap<Arc<K>, Place<K, T>, Seed>,
    candidates: &mut Vec<Arc<K>>,
    at: usize,
    asker: usize,
)
    requires equality { IsEquality K.eq }
    requires linked { IsLinked K.eq places.old.entries }
    requires listed { IsListed K.eq (shares_of places.old.entries)
        (map arc_value candidates.old.items) (vec_capacity candidates.old) }
    ensures listed { IsListed K.eq (shares_of places.new.entries)
        (map arc_value candidates.new.items) (vec_capacity candidates.new) }
    ensures linked { IsLinked K.eq places.new.entries }
    ensures names { names_of places.new.entries ≡ names_of places.old.entries }
    ensures changed { (j : K) → slice_get (names_of places.old.entries) asker ≡ Some j
        → IsChangedAt K.eq at (λ p r. Left K.eq (Tasked j) p r × UsesRoom 0 0 0 p r)
        places.old.entries places.new.entries }
{
    let Some(place) = places.get_index_mut(at) else {
        return;
    };
    place.askers.swap_remove(asker);
    settle(place, candidates);
}

/// Takes one asking task away from a key, which is given by number, and gives its number and its
/// key.
pub fn pop_asker<K: Eq + Hash + Drop, T: Drop>(
    places: &mut IndexMap<Arc<K>, Place<K, T>, Seed>,
    candidates: &mut Vec<Arc<K>>,
    at: usize,
) -> Option<(usize, Arc<K>)>
    requires equality { IsEquality K.eq }
    requires linked { IsLinked K.eq places.old.entries }
    requires listed { IsListed K.eq (shares_of places.old.entries)
        (map arc_value candidates.old.items) (vec_capacity candidates.old) }
    ensures listed { IsListed K.eq (shares_of places.new.entries)
        (map arc_value candidates.new.items) (vec_capacity candidates.new) }
    ensures named { IfSome result
        (λ r. slice_get (names_of places.old.entries) r.0 ≡ Some (arc_value r.1)) }
    ensures asked { (k : K) → slice_get (names_of places.old.entries) at ≡ Some k
        → IfSome result
        (λ r. asks K.eq (shares_of places.old.entries) k (Tasked (arc_value r.1)) ≡ true) }
    ensures some { IfSome result (λ a. IsChangedAt K.eq at
        (λ p r. Left K.eq (Tasked (arc_value a.1)) p r × UsesRoom 0 0 0 p r) places.old.entries
        places.new.entries) }
    ensures fewer { IfSome result
        (λ r. ask_count (shares_of places.new.entries) < ask_count (shares_of places.old.entries)) }
    ensures alone { (k : K) → slice_get (names_of places.old.entries) at ≡ Some k
        → IfNone result ((j : K) → asks K.eq (shares_of places.old.entries) k (Tasked j) ≡ false) }
    ensures none { IfNone result (IsChangedAt K.eq at (λ p r. Stays K.eq p r × UsesRoom 0 0 0 p r)
        places.old.entries places.new.entries) }
{
    let Some(place) = places.get_index_mut(at) else {
        return None;
    };
    let asker = place.askers.pop();
    settle(place, candidates);
    asker
}

/// Writes a task to the place of a key.
pub fn put_task<K: Eq + Hash + Drop, T: Drop>(
    places: &mut IndexMap<Arc<K>, Place<K, T>, Seed>,
    candidates: &mut Vec<Arc<K>>,
    key: &Arc<K>,
    task: T,
)
    requires equality { IsEquality K.eq }
    requires linked { IsLinked K.eq places.old.entries }
    requires place { has_place K.eq (shares_of places.old.entries) (arc_value key.now) ≡ true }
    requires listed { IsListed K.eq (shares_of places.old.entries)
        (map arc_value candidates.old.items) (vec_capacity candidates.old) }
    ensures linked { IsLinked K.eq places.new.entries }
    ensures listed { IsListed K.eq (shares_of places.new.entries)
        (map arc_value candidates.new.items) (vec_capacity candidates.new) }
    ensures changed { IsChanged K.eq (arc_value key.now) (λ p r. Turns K.eq (λ t. Some task)
        (λ e. true) (λ x b. b) (λ d b. b) p r × UsesRoom 0 0 0 p r) (shares_of places.old.entries)
        (shares_of places.new.entries) }
{
    let Some(place) = places.get_mut(key) else {
        return;
    };
    place.task = Some(task);
    place.live = true;
    settle(place, candidates);
}

/// Writes a task that has ended to the place of a key, which is given by number, and takes the
/// waits of the place out.
pub fn put_ended<K: Eq + Hash + Drop, T: Drop>(
    places: &mut IndexMap<Arc<K>, Place<K, T>, Seed>,
    alloc: Global,
    at: usize,
    task: T,
) -> SmallMap<K>
    requires equality { IsEquality K.eq }
    requires linked { IsLinked K.eq places.old.entries }
    requires place { (k : K) → slice_get (names_of places.old.entries) at ≡ Some k
        → has_place K.eq (shares_of places.old.entries) k ≡ true }
    ensures listed { KeepsListed K.eq (shares_of places.old.entries)
        (shares_of places.new.entries) }
    ensures numbered { AreNumbered (names_of places.new.entries) result.entries }
    ensures waits { (k : K) → slice_get (names_of places.old.entries) at ≡ Some k
        → map arc_value (values_of result.entries)
        ≡ waits_at K.eq (shares_of places.old.entries) k }
    ensures changed { IsChangedAt K.eq at (λ p r. Turns K.eq (λ t. Some task) (λ e. false)
        (λ x b. b) (λ d b. false) p r × UsesRoom 0 0 p.wait_room p r) places.old.entries
        places.new.entries }
{
    let none = SmallMap::new(alloc);
    let Some(free) = places.get_index_mut(at) else {
        return none;
    };
    free.task = Some(task);
    free.live = false;
    mem::replace(&mut free.waits, none)
}

/// Notes that the task of a key has ended, and takes its waits out. The key is given by number.
pub fn end_task<K: Eq + Hash + Drop, T: Drop>(
    places: &mut IndexMap<Arc<K>, Place<K, T>, Seed>,
    alloc: Global,
    at: usize,
) -> SmallMap<K>
    requires equality { IsEquality K.eq }
    requires linked { IsLinked K.eq places.old.entries }
    ensures listed { KeepsListed K.eq (shares_of places.old.entries)
        (shares_of places.new.entries) }
    ensures numbered { AreNumbered (names_of places.new.entries) result.entries }
    ensures waits { (k : K) → slice_get (names_of places.old.entries) at ≡ Some k
        → map arc_value (values_of result.entries)
        ≡ waits_at K.eq (shares_of places.old.entries) k }
    ensures changed { IsChangedAt K.eq at (λ p r. Turns K.eq (λ t. t) (λ e. false) (λ x b. b)
        (λ d b. false) p r × UsesRoom 0 0 p.wait_room p r) places.old.entries places.new.entries }
{
    let none = SmallMap::new(alloc);
    let Some(place) = places.get_index_mut(at) else {
        return none;
    };
    place.live = false;
    mem::replace(&mut place.waits, none)
}

/// Takes a key out of those that the task of another one waits for, both by number.
pub fn drop_wait<K: Eq + Hash + Drop, T: Drop>(
    places: &mut IndexMap<Arc<K>, Place<K, T>, Seed>,
    at: usize,
    asked: usize,
)
    requires equality { IsEquality K.eq }
    requires linked { IsLinked K.eq places.old.entries }
    ensures listed { KeepsListed K.eq (shares_of places.old.entries)
        (shares_of places.new.entries) }
    ensures changed { (d : K) → slice_get (names_of places.old.entries) asked ≡ Some d
        → IsChangedAt K.eq at (λ p r. Turns K.eq (λ t. t) (λ e. e) (λ x b. b)
        (λ c b. b && not (K.eq d c)) p r × UsesRoom 0 0 0 p r) places.old.entries
        places.new.entries }
{
    let Some(place) = places.get_index_mut(at) else {
        return;
    };
    place.waits.swap_remove(asked);
}

/// Adds a promise to a key, in room made ahead.
pub fn add_promise<K: Eq + Hash + Drop, T: Drop>(
    places: &mut IndexMap<Arc<K>, Place<K, T>, Seed>,
    key: &Arc<K>,
    number: u64,
)
    requires equality { IsEquality K.eq }
    requires linked { IsLinked K.eq places.old.entries }
    requires room { (asks K.eq (shares_of places.old.entries) (arc_value key.now) (Promised number)
        ≡ true) ⊎ (0 < promise_room K.eq (shares_of places.old.entries) (arc_value key.now)) }
    ensures linked { IsLinked K.eq places.new.entries }
    ensures listed { KeepsListed K.eq (shares_of places.old.entries)
        (shares_of places.new.entries) }
    ensures changed { IsChanged K.eq (arc_value key.now)
        (λ p r. Joined K.eq (Promised number) p r × UsesRoom 1 0 0 p r)
        (shares_of places.old.entries) (shares_of places.new.entries) }
{
    let Some(place) = places.get_mut(key) else {
        return;
    };
    let _ = place.promises.insert(number);
}

/// Adds an asking task, with its number, to a key, which is given by number, in room made ahead.
pub fn add_asker<K: Eq + Hash + Drop, T: Drop>(
    places: &mut IndexMap<Arc<K>, Place<K, T>, Seed>,
    at: usize,
    number: usize,
    asker: Arc<K>,
)
    requires equality { IsEquality K.eq }
    requires linked { IsLinked K.eq places.old.entries }
    requires named { slice_get (names_of places.old.entries) number ≡ Some (arc_value asker) }
    requires room { (k : K) → slice_get (names_of places.old.entries) at ≡ Some k
        → (asks K.eq (shares_of places.old.entries) k (Tasked (arc_value asker)) ≡ true)
        ⊎ (0 < asker_room K.eq (shares_of places.old.entries) k) }
    ensures listed { KeepsListed K.eq (shares_of places.old.entries)
        (shares_of places.new.entries) }
    ensures changed { IsChangedAt K.eq at
        (λ p r. Joined K.eq (Tasked (arc_value asker)) p r × UsesRoom 0 1 0 p r) places.old.entries
        places.new.entries }
{
    let Some(place) = places.get_index_mut(at) else {
        return;
    };
    let _ = place.askers.insert(number, asker);
}

/// Adds a key, with its number, to those that the task of another one waits for, in room made
/// ahead. That one is given by number.
pub fn add_wait<K: Eq + Hash + Drop, T: Drop>(
    places: &mut IndexMap<Arc<K>, Place<K, T>, Seed>,
    at: usize,
    number: usize,
    asked: Arc<K>,
)
    requires equality { IsEquality K.eq }
    requires linked { IsLinked K.eq places.old.entries }
    requires named { slice_get (names_of places.old.entries) number ≡ Some (arc_value asked) }
    requires room { (k : K) → slice_get (names_of places.old.entries) at ≡ Some k
        → (list_any (K.eq (arc_value asked)) (waits_at K.eq (shares_of places.old.entries) k)
        ≡ true) ⊎ (0 < wait_room K.eq (shares_of places.old.entries) k) }
    ensures listed { KeepsListed K.eq (shares_of places.old.entries)
        (shares_of places.new.entries) }
    ensures changed { IsChangedAt K.eq at (λ p r. Turns K.eq (λ t. t) (λ e. e) (λ x b. b)
        (λ d b. b || K.eq (arc_value asked) d) p r × UsesRoom 0 0 1 p r) places.old.entries
        places.new.entries }
{
    let Some(place) = places.get_index_mut(at) else {
        return;
    };
    let _ = place.waits.insert(number, asked);
}
