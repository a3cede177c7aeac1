//! Tasks that are ready or out, in one set: the ready ones first.
ghost use Rattle.std.specs.Prelude.{◌≡◌, true, ◌<◌, ◌≤◌, ◌+◌, ◌^◌, ◌++◌, ◌&&◌, nat_eq, [], ◌∷◌, ℕ, length, map, slice_get, Some, IfSome, IfNone};
ghost use Rattle.std.specs.Arc.{arc_value};
ghost use Rattle.std.specs.Cmp.{unsigned_Decides, first_so, second_so};
ghost use Rattle.std.specs.Hash as fed;
ghost use Rattle.std.specs.List.{swap};
ghost use Rattle.indexmap.specs.IndexSet.{spare};
ghost use Rattle.core_laws.specs.Desk.{Loses};
ghost use Rattle.dice_tasks.specs.Hands.{Stays};
ghost use Rattle.dice_tasks.specs.Shelves.{place_of, ready_of, out_of};
ghost use Rattle.dice_tasks.specs.declared.shelf.ReadyTask.{ReadyTask as Ready};
ghost use Rattle.lists.specs.Lists.{AreDistinct, Has};

use dice_key::{KeyRef, Seed, Universe, laws_of};
use indexmap::{Equivalent, IndexSet};
use std::hash::Hash;
use std::sync::Arc;

/// A task that is ready or out, by its version and key.
#[derive(PartialEq, Eq, Hash, Drop)]
pub struct ReadyTask<K> {
    pub version: u64,
    pub key: Arc<K>,
}

impl<K: Eq + Hash> Equivalent<ReadyTask<K>> for (u64, &Arc<K>) {
    ghost equivalent = { λ q x. nat_eq q.0 x.version
        && K.eq (arc_value q.1.now) (arc_value x.key) };

    ghost respects_hash = { λ q x h i. fed.u64 ((unsigned_Decides q.0 x.version).0
        (first_so (nat_eq q.0 x.version) (K.eq (arc_value q.1.now) (arc_value x.key)) h) i)
        ++ K.respects_eq (arc_value q.1.now) (arc_value x.key)
        (second_so (nat_eq q.0 x.version) (K.eq (arc_value q.1.now) (arc_value x.key)) h) i };

    ghost respects_eq = { λ q x y h i. nat_eq ((unsigned_Decides q.0 x.version).0
        (first_so (nat_eq q.0 x.version) (K.eq (arc_value q.1.now) (arc_value x.key)) h) i)
        y.version
        && K.Eq.laws.congr (arc_value q.1.now) (arc_value x.key) (arc_value y.key)
        (second_so (nat_eq q.0 x.version) (K.eq (arc_value q.1.now) (arc_value x.key)) h) i };

    fn equivalent(&self, task: &ReadyTask<K>) -> bool {
        self.0 == task.version && *self.1 == task.key
    }
}

/// The tasks that are ready or out. The first of them, as many as a number beside it says, are
/// ready.
pub(crate) type Shelf<U> = IndexSet<ReadyTask<<U as Universe>::Key>, Seed>;

/// Whether this task has the index.
fn stands_at<U: Universe>(shelf: &Shelf<U>, index: usize, version: u64, key: &KeyRef<U>) -> bool
    ensures { result ≡ true → (x : Ready U.Key) × (slice_get shelf.now.keys index ≡ Some x)
        × (place_of x ≡ (version, arc_value key.now)) }
{
    laws_of::<U>();
    match shelf.get_index(index) {
        Some(task) => (version, key).equivalent(task),
        None => false,
    }
}

/// The index of a task. This index is looked at first.
pub(crate) fn index_of<U: Universe>(
    shelf: &Shelf<U>,
    first: usize,
    version: u64,
    key: &KeyRef<U>,
) -> Option<usize>
    ensures some { IfSome result (λ i. (x : Ready U.Key) × (slice_get shelf.now.keys i ≡ Some x)
        × (place_of x ≡ (version, arc_value key.now))) }
    ensures none { IfNone result
        (Has (map place_of shelf.now.keys) (version, arc_value key.now) → ⊥) }
{
    laws_of::<U>();
    if stands_at::<U>(shelf, first, version, key) {
        return Some(first);
    }
    shelf.get_index_of((version, key))
}

/// Exchanges two tasks. There is nothing to be done if they are one.
fn swap_tasks<U: Universe>(shelf: &mut Shelf<U>, first: usize, second: usize)
    requires first { first < length shelf.old.keys }
    requires second { second < length shelf.old.keys }
    requires distinct { AreDistinct (map place_of shelf.old.keys) }
    ensures keys { shelf.new.keys ≡ swap shelf.old.keys first second }
    ensures distinct { AreDistinct (map place_of shelf.new.keys) }
    ensures room { spare shelf.old ≤ spare shelf.new }
{
    laws_of::<U>();
    if first != second {
        shelf.swap_indices(first, second);
    }
}

/// Puts a task that is out to the end of those that are ready; these are one more then.
pub(crate) fn put_back<U: Universe>(
    shelf: &mut Shelf<U>,
    ready: usize,
    version: u64,
    key: &KeyRef<U>,
)
    requires bound { ready ≤ length shelf.old.keys }
    requires distinct { AreDistinct (map place_of shelf.old.keys) }
    requires out { Has (out_of ready shelf.old.keys) (version, arc_value key.now) }
    ensures ready { ready_of (ready + 1) shelf.new.keys
        ≡ ready_of ready shelf.old.keys ++ (version, arc_value key.now) ∷ [] }
    ensures out { Loses (version, arc_value key.now) (out_of ready shelf.old.keys)
        (out_of (ready + 1) shelf.new.keys) }
    ensures more { ready < length shelf.old.keys }
    ensures len { length shelf.new.keys ≡ length shelf.old.keys }
    ensures distinct { AreDistinct (map place_of shelf.new.keys) }
    ensures room { spare shelf.old ≤ spare shelf.new }
{
    laws_of::<U>();
    if let Some(index) = index_of::<U>(shelf, ready, version, key) {
        swap_tasks::<U>(shelf, index, ready);
    }
}

/// Takes out a task that is out.
pub(crate) fn take_away<U: Universe>(
    shelf: &mut Shelf<U>,
    ready: usize,
    version: u64,
    key: &KeyRef<U>,
)
    requires bound { ready ≤ length shelf.old.keys }
    requires distinct { AreDistinct (map place_of shelf.old.keys) }
    requires out { Has (out_of ready shelf.old.keys) (version, arc_value key.now) }
    ensures ready { ready_of ready shelf.new.keys ≡ ready_of ready shelf.old.keys }
    ensures out { Loses (version, arc_value key.now) (out_of ready shelf.old.keys)
        (out_of ready shelf.new.keys) }
    ensures more { ready < length shelf.old.keys }
    ensures len { length shelf.new.keys + 1 ≡ length shelf.old.keys }
    ensures distinct { AreDistinct (map place_of shelf.new.keys) }
    ensures room { spare shelf.old ≤ spare shelf.new }
{
    laws_of::<U>();
    if let Some(index) = index_of::<U>(shelf, ready, version, key) {
        shelf.swap_remove_index(index);
    }
}

/// Puts a task in, to the end of those that are ready; these are one more then.
pub(crate) fn put_in<U: Universe>(shelf: &mut Shelf<U>, ready: usize, task: ReadyTask<U::Key>)
    requires bound { ready ≤ length shelf.old.keys }
    requires distinct { AreDistinct (map place_of shelf.old.keys) }
    requires new { Has (map place_of shelf.old.keys) (place_of task) → ⊥ }
    requires room { 0 < spare shelf.old }
    ensures ready { ready_of (ready + 1) shelf.new.keys
        ≡ ready_of ready shelf.old.keys ++ place_of task ∷ [] }
    ensures out { Stays (out_of ready shelf.old.keys) (out_of (ready + 1) shelf.new.keys) }
    ensures len { length shelf.new.keys ≡ length shelf.old.keys + 1 }
    ensures small { length shelf.new.keys < 2 ^ 64 }
    ensures distinct { AreDistinct (map place_of shelf.new.keys) }
    ensures room { spare shelf.old ≤ spare shelf.new + 1 }
{
    laws_of::<U>();
    let last = shelf.len();
    let _ = shelf.insert(task);
    swap_tasks::<U>(shelf, last, ready);
}

/// Takes out a task that is ready; these are one fewer then.
pub(crate) fn take_out<U: Universe>(
    shelf: &mut Shelf<U>,
    ready: usize,
    version: u64,
    key: &KeyRef<U>,
)
    requires bound { ready < length shelf.old.keys }
    requires distinct { AreDistinct (map place_of shelf.old.keys) }
    requires ready { Has (ready_of (ready + 1) shelf.old.keys) (version, arc_value key.now) }
    ensures ready { Loses (version, arc_value key.now) (ready_of (ready + 1) shelf.old.keys)
        (ready_of ready shelf.new.keys) }
    ensures out { Stays (out_of (ready + 1) shelf.old.keys) (out_of ready shelf.new.keys) }
    ensures len { length shelf.new.keys + 1 ≡ length shelf.old.keys }
    ensures distinct { AreDistinct (map place_of shelf.new.keys) }
    ensures room { spare shelf.old ≤ spare shelf.new }
{
    laws_of::<U>();
    if let Some(index) = index_of::<U>(shelf, ready, version, key) {
        swap_tasks::<U>(shelf, index, ready);
        shelf.swap_remove_index(ready);
    }
}
