//! What a commit reaches.
ghost use Rattle.std.specs.Prelude.{◌≡◌, ◌++◌, ◌∷◌, List, [], map, filter, IfOk, OnOk};
ghost use Rattle.std.specs.Arc.{arc_value};
ghost use Rattle.versioned_graph.specs.Edges.{CommitReaches, is_edge};
ghost use Rattle.versioned_graph.specs.Users.{IsIndexed, recorded_of};
ghost use Rattle.lists.specs.Lists.{Has};

use crate::store::Store;
use crate::users::Users;
use dice_key::{NoMemory, Universe, laws_of};
use small_set::SmallSet;
use std::alloc::Global;
use std::sync::Arc;

/// All keys to which chains of recorded edges lead from the changed ones, and those themselves.
///
/// The users of each key are passed at most once.
pub(crate) fn reached<U: Universe>(
    alloc: Global,
    store: &Store<U>,
    users: &Users<U>,
    changed: &[Arc<U::Key>],
) -> Result<Vec<Arc<U::Key>>, NoMemory>
    requires { IsIndexed U.Key.eq store.now users.now }
    ensures all { IfOk result (λ r. (q : U.Key)
        → CommitReaches U.Key.eq store.now (map arc_value changed.now) q
        → Has (map arc_value r.items) q) }
    ensures only { IfOk result (λ r. (q : U.Key) → Has (map arc_value r.items) q
        → CommitReaches U.Key.eq store.now (map arc_value changed.now) q) }
{
    let mut todo = copies(alloc, changed)?;
    let mut seen = SmallSet::new(alloc, users.seed());
    let mut reached = Vec::new(alloc);
    walk(store, users, &mut todo, &mut seen, &mut reached)?;
    Ok(reached)
}

/// Adds all keys to which chains of recorded edges lead from those that are still to be followed,
/// and those themselves.
fn walk<U: Universe>(
    store: &Store<U>,
    users: &Users<U>,
    todo: &mut Vec<Arc<U::Key>>,
    seen: &mut SmallSet<Arc<U::Key>>,
    reached: &mut Vec<Arc<U::Key>>,
) -> Result<(), NoMemory>
    requires indexed { IsIndexed U.Key.eq store.now users.now }
    requires unseen { seen.old ≡ [] }
    requires none { reached.old.items ≡ [] }
    ensures all { OnOk result ((q : U.Key)
        → CommitReaches U.Key.eq store.now (map arc_value todo.old.items) q
        → Has (map arc_value reached.new.items) q) }
    ensures only { OnOk result ((q : U.Key) → Has (map arc_value reached.new.items) q
        → CommitReaches U.Key.eq store.now (map arc_value todo.old.items) q) }
{
    laws_of::<U>();
    while let Some(key) = todo.pop() {
        if seen.insert(Arc::try_clone(&key)?)? {
            push_users(store, users, &key, todo)?;
            reached.push(key)?;
        }
    }
    Ok(())
}

/// The same keys again, shared.
fn copies<K: Drop>(alloc: Global, keys: &[Arc<K>]) -> Result<Vec<Arc<K>>, NoMemory>
    ensures { IfOk result (λ ks. map arc_value ks.items ≡ map arc_value keys.now) }
{
    let mut copies = Vec::with_capacity(alloc, keys.len())?;
    for key in keys {
        copies.push(Arc::try_clone(key)?)?;
    }
    Ok(copies)
}

/// Adds the keys to which an edge from this one is recorded.
fn push_users<U: Universe>(
    store: &Store<U>,
    users: &Users<U>,
    key: &Arc<U::Key>,
    todo: &mut Vec<Arc<U::Key>>,
) -> Result<(), NoMemory>
    ensures { OnOk result (map arc_value todo.new.items
        ≡ map arc_value todo.old.items
        ++ recorded_of U.Key.eq store.now users.now (arc_value key.now)) }
{
    let Some(recorded) = users.of(key) else {
        return Ok(());
    };
    for user in recorded.as_slice() {
        push_user(store, key, user, todo)?;
    }
    Ok(())
}

/// Adds the second key, if an edge to it from the first one is recorded.
fn push_user<U: Universe>(
    store: &Store<U>,
    key: &Arc<U::Key>,
    user: &Arc<U::Key>,
    todo: &mut Vec<Arc<U::Key>>,
) -> Result<(), NoMemory>
    ensures { OnOk result (map arc_value todo.new.items
        ≡ map arc_value todo.old.items
        ++ filter (is_edge U.Key.eq store.now (arc_value key.now)) (arc_value user.now ∷ [])) }
{
    if !store.is_edge(key, user) {
        return Ok(());
    }
    todo.push(Arc::try_clone(user)?)?;
    Ok(())
}
