//! What a table keeps at a key.
ghost use Rattle.std.specs.Prelude.{◌≡◌, ◌<◌, ◌≤◌, ◌++◌, [], Some, None, IfSome, IfNone, true, map, length, is_some, vec_capacity};
ghost use Rattle.std.specs.Arc.{arc_value};
ghost use Rattle.std.specs.Option.{option_to_list};
ghost use Rattle.task_share.specs.Seen.{has_live};
ghost use Rattle.task_share.specs.Listed.{share_of, settled, released, is_idle, IsVacant};

use small_map::SmallMap;
use small_set::NumberSet;
use std::alloc::Global;
use std::hash::Hash;
use std::sync::Arc;

/// The place of a key: its task, whether it has not ended, who asks for it, and what it waits for:
/// keys by their numbers, with a pointer to each. A place may stand before its task does, as room.
///
/// The place holds its key until the key goes to the candidates, so that a key may become one
/// without memory. A place whose task was taken out with the key has neither; it is no room until
/// it is given the key anew.
pub struct Place<K: Eq + Hash + Drop, T: Drop> {
    pub task: Option<T>,
    pub live: bool,
    pub promises: NumberSet,
    pub askers: SmallMap<K>,
    pub waits: SmallMap<K>,
    pub name: Option<Arc<K>>,
}

// (One function for all places that drop one: a derived drop is written out at each.)
impl<K: Eq + Hash + Drop, T: Drop> Drop for Place<K, T> {
    fn drop(self) {
        let Place {
            task: _task,
            live: _,
            promises: _promises,
            askers: _askers,
            waits: _waits,
            name: _name,
        } = self;
    }
}

impl<K: Eq + Hash + Drop, T: Drop> Place<K, T> {
    /// The task with what it waits for, if there is one.
    pub fn into_task(self) -> Option<(T, SmallMap<K>)>
        ensures some { IfSome result
            (λ f. (self.task ≡ Some f.0) × (f.1.entries ≡ self.waits.entries)) }
        ensures none { IfNone result (self.task ≡ None) }
    {
        let Place {
            task,
            live: _,
            promises: _promises,
            askers: _askers,
            waits,
            name: _name,
        } = self;
        task.zip(Some(waits))
    }
}

/// Whether there is a task that has not ended.
pub fn is_running<K: Eq + Hash + Drop, T: Drop>(place: &Place<K, T>) -> bool
    ensures { result ≡ has_live (share_of place.now) }
{
    place.live
}

/// Whether there is a task that has not ended, and nobody asks for it.
pub fn is_unasked<K: Eq + Hash + Drop, T: Drop>(place: &Place<K, T>) -> bool
    ensures { result ≡ is_idle (share_of place.now) }
{
    is_running(place) && place.promises.is_empty() && place.askers.is_empty()
}

/// If nobody asks for the task, its key goes to the candidates. It takes no memory.
pub fn settle<K: Eq + Hash + Drop, T: Drop>(place: &mut Place<K, T>, candidates: &mut Vec<Arc<K>>)
    requires { is_some place.old.name ≡ true
        → length candidates.old.items < vec_capacity candidates.old }
    ensures place { share_of place.new ≡ settled (share_of place.old) }
    ensures candidates { map arc_value candidates.new.items
        ≡ map arc_value candidates.old.items ++ option_to_list (released (share_of place.old)) }
    ensures room { vec_capacity candidates.new ≡ vec_capacity candidates.old }
    ensures askers { place.new.askers ≡ place.old.askers }
    ensures waits { place.new.waits ≡ place.old.waits }
{
    if is_unasked(place) {
        if let Some(name) = place.name.take() {
            candidates.push_reserved(name);
        }
    }
}

/// A place without a task, an asker and a wait, which holds this key.
pub fn vacant<K: Eq + Hash + Drop, T: Drop>(alloc: Global, name: Option<Arc<K>>) -> Place<K, T>
    ensures vacant { IsVacant (share_of result) }
    ensures name { result.name ≡ name }
    ensures askers { result.askers.entries ≡ [] }
    ensures waits { result.waits.entries ≡ [] }
{
    Place {
        task: None,
        live: false,
        promises: NumberSet::new(alloc),
        askers: SmallMap::new(alloc),
        waits: SmallMap::new(alloc),
        name,
    }
}
