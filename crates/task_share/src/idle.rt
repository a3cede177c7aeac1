//! The tasks that nobody asks for: how one is found among the candidates, and how its asks are
//! withdrawn.
ghost use Rattle.std.specs.Prelude.{◌≡◌, ◌≤◌, ◌++◌, ◌∷◌, [], ℕ, List, slice_get, false, Some, None, map, vec_capacity, IfSome, IfNone};
ghost use Rattle.std.specs.Arc.{arc_value};
ghost use Rattle.std.specs.Map.{lookup, values_of};
ghost use Rattle.dice_key.specs.Lawful.{IsEquality};
ghost use Rattle.task_share.specs.Seen.{is_for};
ghost use Rattle.task_share.specs.Listed.{shares_of, names_of, AreNumbered, IsLinked, is_idle, IsListed, IsKept, IsPopped, AllRun, NoneIdle, Withdraws};

use crate::place::{Place, is_unasked, vacant};
use crate::places::leave_task;
use dice_key::Seed;
use indexmap::IndexMap;
use small_map::SmallMap;
use std::alloc::Global;
use std::hash::Hash;
use std::mem;
use std::sync::Arc;

/// Whether the key of a number has a task that has not ended, and nobody asks for it.
fn is_idle_at<K: Eq + Hash + Drop, T: Drop>(
    places: &IndexMap<Arc<K>, Place<K, T>, Seed>,
    at: usize,
) -> bool
    requires equality { IsEquality K.eq }
    requires linked { IsLinked K.eq places.now.entries }
    ensures { (k : K) → slice_get (names_of places.now.entries) at ≡ Some k
        → result ≡ is_for is_idle (lookup (K.eq k) (shares_of places.now.entries)) }
{
    match places.get_index(at) {
        Some((_, place)) => is_unasked(place),
        None => false,
    }
}

/// Gives a key that is no candidate any more back to its place, which is given by number.
fn give_back<K: Eq + Hash + Drop, T: Drop>(
    places: &mut IndexMap<Arc<K>, Place<K, T>, Seed>,
    at: usize,
    key: Arc<K>,
)
    requires equality { IsEquality K.eq }
    requires linked { IsLinked K.eq places.old.entries }
    requires named { slice_get (names_of places.old.entries) at ≡ Some (arc_value key) }
    requires busy { is_for is_idle (lookup (K.eq (arc_value key)) (shares_of places.old.entries))
        ≡ false }
    ensures linked { IsLinked K.eq places.new.entries }
    ensures listed { (cs : List K) (room : ℕ)
        → IsListed K.eq (shares_of places.old.entries) (cs ++ arc_value key ∷ []) room
        → IsListed K.eq (shares_of places.new.entries) cs room }
    ensures kept { IsKept K.eq (shares_of places.old.entries) (shares_of places.new.entries) }
{
    let Some(place) = places.get_index_mut(at) else {
        unreachable!();
    };
    place.name = Some(key);
}

/// Takes the task of a key out, if it has not ended and nobody asks for it, and gives the number of
/// the key, the key, the task and what it waits for; otherwise the key goes back to its place. The
/// place stays, so that all numbers do.
fn take_idle<K: Eq + Hash + Drop, T: Drop>(
    places: &mut IndexMap<Arc<K>, Place<K, T>, Seed>,
    alloc: Global,
    key: Arc<K>,
) -> Option<(usize, Arc<K>, T, SmallMap<K>)>
    requires equality { IsEquality K.eq }
    requires linked { IsLinked K.eq places.old.entries }
    requires runs { AllRun K.eq (shares_of places.old.entries) }
    ensures linked { IsLinked K.eq places.new.entries }
    ensures listed { (cs : List K) (room : ℕ)
        → IsListed K.eq (shares_of places.old.entries) (cs ++ arc_value key ∷ []) room
        → IsListed K.eq (shares_of places.new.entries) cs room }
    ensures named { IfSome result
        (λ f. slice_get (names_of places.new.entries) f.0 ≡ Some (arc_value f.1)) }
    ensures numbered { IfSome result (λ f. AreNumbered (names_of places.new.entries) f.3.entries) }
    ensures some { IfSome result (λ f. IsPopped K.eq (arc_value f.1) f.2
        (map arc_value (values_of f.3.entries)) (shares_of places.old.entries)
        (shares_of places.new.entries)) }
    ensures none { IfNone result
        (IsKept K.eq (shares_of places.old.entries) (shares_of places.new.entries)) }
{
    let Some(at) = places.get_index_of(&key) else {
        return None;
    };
    if !is_idle_at(places, at) {
        give_back(places, at, key);
        return None;
    }
    let Some(place) = places.get_index_mut(at) else {
        unreachable!();
    };
    let empty = vacant(alloc, None);
    let taken = mem::replace(place, empty);
    let Some((task, waits)) = taken.into_task() else {
        unreachable!();
    };
    Some((at, key, task, waits))
}

/// Takes one task out that has not ended and that nobody asks for, and gives the number of its key,
/// the key, the task and what it waits for.
pub fn pop_idle<K: Eq + Hash + Drop, T: Drop>(
    places: &mut IndexMap<Arc<K>, Place<K, T>, Seed>,
    candidates: &mut Vec<Arc<K>>,
    alloc: Global,
) -> Option<(usize, Arc<K>, T, SmallMap<K>)>
    requires equality { IsEquality K.eq }
    requires linked { IsLinked K.eq places.old.entries }
    requires listed { IsListed K.eq (shares_of places.old.entries)
        (map arc_value candidates.old.items) (vec_capacity candidates.old) }
    ensures linked { IsLinked K.eq places.new.entries }
    ensures listed { IsListed K.eq (shares_of places.new.entries)
        (map arc_value candidates.new.items) (vec_capacity candidates.new) }
    ensures named { IfSome result
        (λ f. slice_get (names_of places.new.entries) f.0 ≡ Some (arc_value f.1)) }
    ensures numbered { IfSome result (λ f. AreNumbered (names_of places.new.entries) f.3.entries) }
    ensures some { IfSome result (λ f. IsPopped K.eq (arc_value f.1) f.2
        (map arc_value (values_of f.3.entries)) (shares_of places.old.entries)
        (shares_of places.new.entries)) }
    ensures none { IfNone result (IsKept K.eq (shares_of places.old.entries)
        (shares_of places.new.entries) × NoneIdle K.eq (shares_of places.new.entries)) }
{
    while let Some(key) = candidates.pop() {
        if let Some(found) = take_idle(places, alloc, key) {
            return Some(found);
        }
    }
    None
}

/// Withdraws what a task, which is given by its number, asks for, which is what it waits for.
pub fn withdraw<K: Eq + Hash + Drop, T: Drop>(
    places: &mut IndexMap<Arc<K>, Place<K, T>, Seed>,
    candidates: &mut Vec<Arc<K>>,
    asker: usize,
    waits: SmallMap<K>,
)
    requires equality { IsEquality K.eq }
    requires linked { IsLinked K.eq places.old.entries }
    requires numbered { AreNumbered (names_of places.old.entries) waits.entries }
    requires listed { IsListed K.eq (shares_of places.old.entries)
        (map arc_value candidates.old.items) (vec_capacity candidates.old) }
    ensures linked { IsLinked K.eq places.new.entries }
    ensures listed { IsListed K.eq (shares_of places.new.entries)
        (map arc_value candidates.new.items) (vec_capacity candidates.new) }
    ensures withdrawn { (k : K) → slice_get (names_of places.old.entries) asker ≡ Some k
        → Withdraws K.eq k (map arc_value (values_of waits.entries)) (shares_of places.old.entries)
        (shares_of places.new.entries) }
{
    let mut rest = waits;
    while let Some((at, _asked)) = rest.pop() {
        leave_task(places, candidates, at, asker);
    }
}
