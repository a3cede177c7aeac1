//! The table of tasks.
ghost use Rattle.std.specs.Prelude.{◌≡◌, ◌<◌, ◌≤◌, ◌+◌, ◌⊎◌, ◌&&◌, ◌||◌, not, nat_eq, ℕ, [], true, false, Some, None, cond, map, if◌then◌else◌, IsSome, IfSome, IfNone, OnOk, OnErr};
ghost use Rattle.std.specs.Arc.{arc_value};
ghost use Rattle.std.specs.List.{list_any};
ghost use Rattle.std.specs.Map.{lookup};
ghost use Rattle.std.specs.Option.{option_copied, option_copied_mut, option_map};
ghost use Rattle.std.specs.Borrow.{sem};
ghost use Rattle.dice_key.specs.Lawful.{IsEquality};
ghost use Rattle.task_share.specs.Above.{askers_by};
ghost use Rattle.task_share.specs.Asked.{By, Promised, Tasked, is_by, IsDone, Takes};
ghost use Rattle.task_share.specs.Askers.{by_of};
ghost use Rattle.task_share.specs.Lent.{LendsTask, LendsNumbered};
ghost use Rattle.task_share.specs.Seen.{task_at, is_live, asks, waits_at, asked_of, ask_count, live_count, IsMirrored, has_place, promise_room, asker_room, wait_room, KeepsTasks, KeepsAsks, KeepsRoom, KeepsOtherRoom, UsesRoomOf};
ghost use Rattle.task_share.specs.Numbers.{key_at, number_of, keys_of, KeepsNumbers};
ghost use Rattle.lists.specs.Lists.{AreDistinct};

use crate::asker::{Asker, Askers, Wait};
use crate::idle::{pop_idle, withdraw};
use crate::place::{Place, is_running};
use crate::places::{
    add_asker, add_promise, add_wait, drop_wait, end_task, leave_promise, leave_task, pop_asker,
    put_ended, put_task,
};
use crate::room;
use dice_key::{NoMemory, Seed};
use indexmap::IndexMap;
use number_walk::Waits;
use std::alloc::Global;
use std::hash::Hash;
use std::marker::Model;
use std::sync::Arc;

/// The tasks of one epoch, each shared by all who ask for it.
///
/// A key may have a task, which has ended or not, and askers: promises and other tasks. A task
/// waits for the keys that it asks for. Askers are a set: who joins twice has joined once.
///
/// A call takes constant time, however many tasks and askers there are, but for growth; `ended` and
/// `next_unasked` take it for each key that the task waited for, and `next_unasked` for each
/// candidate, which an earlier call made.
pub struct Table<K: Eq + Hash + Drop, T: Drop> {
    places: IndexMap<Arc<K>, Place<K, T>, Seed>,
    candidates: Vec<Arc<K>>,
    alloc: Global,
}

// (One function for all places that drop one: a derived drop is written out at each.)
impl<K: Eq + Hash + Drop, T: Drop> Drop for Table<K, T> {
    fn drop(self) {
        let Table {
            places: _places,
            candidates: _candidates,
            alloc: _,
        } = self;
    }
}

impl<K: Eq + Hash + Drop, T: Drop> Model for Table<K, T> {
    ghost use Rattle.std.specs.Prelude.{List, map, vec_capacity};
    ghost use Rattle.std.specs.Arc.{arc_value};
    ghost use Rattle.dice_key.specs.Lawful.{IsEquality};
    ghost use Rattle.task_share.specs.Seen.{Share};
    ghost use Rattle.task_share.specs.Listed.{shares_of, IsLinked, IsWhole};

    ghost Value = { List (K × Share K T) };

    ghost view = { λ a. shares_of a.places.entries };

    ghost invariant = { λ a. IsEquality K.eq
        × IsWhole K.eq (shares_of a.places.entries) (map arc_value a.candidates.items)
        (vec_capacity a.candidates) × IsLinked K.eq a.places.entries };
}

impl<K: Eq + Hash + Drop, T: Drop> Table<K, T> {
    /// A table without tasks, which hashes keys by this seed. It takes no memory. Keys that are
    /// equal have to be the same.
    pub fn new(alloc: Global, seed: Seed) -> Table<K, T>
        requires { IsEquality K.eq }
        ensures { result ≡ [] }
    {
        Table {
            places: IndexMap::with_hasher(alloc, seed),
            candidates: Vec::new(alloc),
            alloc,
        }
    }

    /// Takes out all tasks, askers and room for them; the memory of the places stays, for others.
    /// It takes no memory.
    pub fn clear(&mut self)
        ensures { self.new ≡ [] }
    {
        self.places.clear();
        self.candidates.clear();
    }

    /// How many keys have had a task, an asker or room for one.
    pub fn place_count(&self) -> usize {
        self.places.len()
    }

    /// Makes room for a task of the key, so that `make_reserved` may follow. Nothing else changes.
    pub fn reserve(&mut self, key: &Arc<K>) -> Result<(), NoMemory>
        ensures tasks { KeepsTasks K.eq self.old self.new }
        ensures asks { KeepsAsks K.eq self.old self.new }
        ensures room { KeepsRoom K.eq self.old self.new }
        ensures ok { OnOk result (has_place K.eq self.new (arc_value key.now) ≡ true) }
    {
        room::reserve_place(&mut self.places, &mut self.candidates, self.alloc, key)?;
        Ok(())
    }

    /// Puts a task, which has not ended, to a key with room for it that has none or an ended one.
    /// The askers stay. It takes no memory.
    pub fn make_reserved(&mut self, key: &Arc<K>, task: T)
        requires room { has_place K.eq self.old (arc_value key.now) ≡ true }
        requires free { is_live K.eq self.old (arc_value key.now) ≡ false }
        ensures tasks { (q : K)
            → task_at K.eq self.new q
            ≡ (if K.eq (arc_value key.now) q then Some task else task_at K.eq self.old q) }
        ensures live { (q : K)
            → is_live K.eq self.new q ≡ (K.eq (arc_value key.now) q || is_live K.eq self.old q) }
        ensures asks { KeepsAsks K.eq self.old self.new }
        ensures room { KeepsRoom K.eq self.old self.new }
    {
        put_task(&mut self.places, &mut self.candidates, key, task);
    }

    /// Puts a task that has ended to a key with room for it that has none or an ended one, and
    /// withdraws the key's own asks. The askers stay. It takes no memory.
    pub fn make_ended(&mut self, key: &Arc<K>, task: T)
        requires room { has_place K.eq self.old (arc_value key.now) ≡ true }
        requires free { is_live K.eq self.old (arc_value key.now) ≡ false }
        ensures tasks { (q : K)
            → task_at K.eq self.new q
            ≡ (if K.eq (arc_value key.now) q then Some task else task_at K.eq self.old q) }
        ensures live { (q : K)
            → is_live K.eq self.new q
            ≡ (is_live K.eq self.old q && not (K.eq (arc_value key.now) q)) }
        ensures asks { (q : K) (a : By K)
            → asks K.eq self.new q a
            ≡ (asks K.eq self.old q a && not (is_by K.eq (Tasked (arc_value key.now)) a)) }
        ensures room { KeepsOtherRoom K.eq (arc_value key.now) self.old self.new }
    {
        let Some(at) = self.places.get_index_of(key) else {
            unreachable!();
        };
        let waits = put_ended(&mut self.places, self.alloc, at, task);
        withdraw(&mut self.places, &mut self.candidates, at, waits);
    }

    /// Puts a task, which has not ended, to a key that has none or an ended one. The askers stay.
    ///
    /// At an error all is as before, but for room, and the task is dropped.
    pub fn make(&mut self, key: &Arc<K>, task: T) -> Result<(), NoMemory>
        requires { is_live K.eq self.old (arc_value key.now) ≡ false }
        ensures tasks { OnOk result ((q : K)
            → task_at K.eq self.new q
            ≡ (if K.eq (arc_value key.now) q then Some task else task_at K.eq self.old q)) }
        ensures live { OnOk result ((q : K)
            → is_live K.eq self.new q ≡ (K.eq (arc_value key.now) q || is_live K.eq self.old q)) }
        ensures asks { KeepsAsks K.eq self.old self.new }
        ensures room { KeepsRoom K.eq self.old self.new }
        ensures err { OnErr result (KeepsTasks K.eq self.old self.new) }
    {
        self.reserve(key)?;
        self.make_reserved(key, task);
        Ok(())
    }

    /// Makes room for one more promise of the key. Nothing else changes.
    pub fn reserve_promise(&mut self, key: &Arc<K>) -> Result<(), NoMemory>
        ensures tasks { KeepsTasks K.eq self.old self.new }
        ensures asks { KeepsAsks K.eq self.old self.new }
        ensures room { KeepsRoom K.eq self.old self.new }
        ensures ok { OnOk result (0 < promise_room K.eq self.new (arc_value key.now)) }
    {
        let at = room::reserve_place(&mut self.places, &mut self.candidates, self.alloc, key)?;
        room::reserve_promise(&mut self.places, at)
    }

    /// Makes room for one more asking task of the key. Nothing else changes.
    pub fn reserve_asker(&mut self, key: &Arc<K>) -> Result<(), NoMemory>
        ensures tasks { KeepsTasks K.eq self.old self.new }
        ensures asks { KeepsAsks K.eq self.old self.new }
        ensures room { KeepsRoom K.eq self.old self.new }
        ensures ok { OnOk result (0 < asker_room K.eq self.new (arc_value key.now)) }
    {
        let at = room::reserve_place(&mut self.places, &mut self.candidates, self.alloc, key)?;
        room::reserve_asker(&mut self.places, at)
    }

    /// Makes room for the task of the key to wait for this many more keys. Nothing else changes.
    pub fn reserve_waits(&mut self, key: &Arc<K>, additional: usize) -> Result<(), NoMemory>
        ensures tasks { KeepsTasks K.eq self.old self.new }
        ensures asks { KeepsAsks K.eq self.old self.new }
        ensures room { KeepsRoom K.eq self.old self.new }
        ensures ok { OnOk result (additional ≤ wait_room K.eq self.new (arc_value key.now)) }
    {
        if additional == 0 {
            return Ok(());
        }
        let at = room::reserve_place(&mut self.places, &mut self.candidates, self.alloc, key)?;
        room::reserve_waits(&mut self.places, at, additional)
    }

    /// Adds a promise to the askers of a key, in room made ahead. It takes no memory.
    pub fn add_promise(&mut self, key: &Arc<K>, number: u64)
        requires { (asks K.eq self.old (arc_value key.now) (Promised number) ≡ true)
            ⊎ (0 < promise_room K.eq self.old (arc_value key.now)) }
        ensures tasks { KeepsTasks K.eq self.old self.new }
        ensures asks { (q : K) (a : By K)
            → asks K.eq self.new q a
            ≡ (asks K.eq self.old q a
            || (K.eq (arc_value key.now) q && is_by K.eq (Promised number) a)) }
        ensures room { UsesRoomOf K.eq (λ q. if K.eq (arc_value key.now) q then 1 else 0) (λ q. 0)
            (λ q. 0) self.old self.new }
        ensures count { ask_count self.new ≤ ask_count self.old }
    {
        add_promise(&mut self.places, key, number);
    }

    /// Adds a task to the askers of the key that it waits for, in room made ahead. It takes no
    /// memory.
    pub fn add_wait(&mut self, wait: Wait<K>)
        requires asker { (asks K.eq self.old wait.key (Tasked wait.asker) ≡ true)
            ⊎ (0 < asker_room K.eq self.old wait.key) }
        requires wait { (asks K.eq self.old wait.key (Tasked wait.asker) ≡ true)
            ⊎ (0 < wait_room K.eq self.old wait.asker) }
        ensures tasks { KeepsTasks K.eq self.old self.new }
        ensures asks { (q : K) (a : By K)
            → asks K.eq self.new q a
            ≡ (asks K.eq self.old q a || (K.eq wait.key q && is_by K.eq (Tasked wait.asker) a)) }
        ensures room { UsesRoomOf K.eq (λ q. 0) (λ q. if K.eq wait.key q then 1 else 0)
            (λ q. if K.eq wait.asker q then 1 else 0) self.old self.new }
        ensures count { ask_count self.new ≤ ask_count self.old + 1 }
    {
        let (key, asker) = wait.into_parts();
        let Some(at) = self.places.get_index_of(&key) else {
            unreachable!();
        };
        let Some(from) = self.places.get_index_of(&asker) else {
            unreachable!();
        };
        add_asker(&mut self.places, at, from, asker);
        add_wait(&mut self.places, from, at, key);
    }

    /// Adds an asker to a key. At an error all is as before, but for room.
    pub fn join(&mut self, key: &Arc<K>, asker: Asker<K>) -> Result<(), NoMemory>
        ensures tasks { KeepsTasks K.eq self.old self.new }
        ensures asks { OnOk result ((q : K) (a : By K)
            → asks K.eq self.new q a
            ≡ (asks K.eq self.old q a
            || (K.eq (arc_value key.now) q && is_by K.eq (by_of asker) a))) }
        ensures err { OnErr result (KeepsAsks K.eq self.old self.new) }
        ensures count { ask_count self.new ≤ ask_count self.old + 1 }
    {
        match asker {
            Asker::Promise(number) => self.join_promise(key, number),
            Asker::Task(asker) => self.join_task(key, &asker),
        }
    }

    fn join_promise(&mut self, key: &Arc<K>, number: u64) -> Result<(), NoMemory>
        ensures tasks { KeepsTasks K.eq self.old self.new }
        ensures asks { OnOk result ((q : K) (a : By K)
            → asks K.eq self.new q a
            ≡ (asks K.eq self.old q a
            || (K.eq (arc_value key.now) q && is_by K.eq (Promised number) a))) }
        ensures err { OnErr result (KeepsAsks K.eq self.old self.new) }
        ensures count { ask_count self.new ≤ ask_count self.old + 1 }
    {
        self.reserve_promise(key)?;
        self.add_promise(key, number);
        Ok(())
    }

    fn join_task(&mut self, key: &Arc<K>, asker: &Arc<K>) -> Result<(), NoMemory>
        ensures tasks { KeepsTasks K.eq self.old self.new }
        ensures asks { OnOk result ((q : K) (a : By K)
            → asks K.eq self.new q a
            ≡ (asks K.eq self.old q a
            || (K.eq (arc_value key.now) q && is_by K.eq (Tasked (arc_value asker.now)) a))) }
        ensures err { OnErr result (KeepsAsks K.eq self.old self.new) }
        ensures count { ask_count self.new ≤ ask_count self.old + 1 }
    {
        self.reserve_asker(key)?;
        self.reserve_waits(asker, 1)?;
        let wait = Wait::new(key, asker)?;
        self.add_wait(wait);
        Ok(())
    }

    /// Takes an asker away from a key. It takes no memory.
    pub fn leave(&mut self, key: &Arc<K>, asker: &Asker<K>)
        ensures tasks { KeepsTasks K.eq self.old self.new }
        ensures asks { (q : K) (a : By K)
            → asks K.eq self.new q a
            ≡ (asks K.eq self.old q a
            && not (K.eq (arc_value key.now) q && is_by K.eq (by_of asker.now) a)) }
        ensures room { KeepsRoom K.eq self.old self.new }
    {
        match asker {
            Asker::Promise(number) => self.leave_by_promise(key, *number),
            Asker::Task(asker) => self.leave_by_task(key, asker),
        }
    }

    fn leave_by_promise(&mut self, key: &Arc<K>, number: u64)
        ensures tasks { KeepsTasks K.eq self.old self.new }
        ensures asks { (q : K) (a : By K)
            → asks K.eq self.new q a
            ≡ (asks K.eq self.old q a
            && not (K.eq (arc_value key.now) q && is_by K.eq (Promised number) a)) }
        ensures room { KeepsRoom K.eq self.old self.new }
    {
        leave_promise(&mut self.places, &mut self.candidates, key, number);
    }

    fn leave_by_task(&mut self, key: &Arc<K>, asker: &Arc<K>)
        ensures tasks { KeepsTasks K.eq self.old self.new }
        ensures asks { (q : K) (a : By K)
            → asks K.eq self.new q a
            ≡ (asks K.eq self.old q a
            && not (K.eq (arc_value key.now) q && is_by K.eq (Tasked (arc_value asker.now)) a)) }
        ensures room { KeepsRoom K.eq self.old self.new }
    {
        table_in_order(self);
        let Some(number) = self.number(key) else {
            return;
        };
        let Some(from) = self.number(asker) else {
            return;
        };
        self.leave_numbered(number, from);
    }

    /// Takes an asking task away from a key, both by number. All keys keep their numbers. It takes
    /// no memory.
    pub fn leave_numbered(&mut self, number: usize, asker: usize)
        requires key { (k : K) × (key_at self.old number ≡ Some k) }
        requires asker { (j : K) × (key_at self.old asker ≡ Some j) }
        ensures tasks { KeepsTasks K.eq self.old self.new }
        ensures asks { (k j : K) → key_at self.old number ≡ Some k → key_at self.old asker ≡ Some j
            → (q : K) (a : By K)
            → asks K.eq self.new q a
            ≡ (asks K.eq self.old q a && not (K.eq k q && is_by K.eq (Tasked j) a)) }
        ensures room { KeepsRoom K.eq self.old self.new }
        ensures numbers { KeepsNumbers self.old self.new }
    {
        leave_task(&mut self.places, &mut self.candidates, number, asker);
        drop_wait(&mut self.places, asker, number);
    }

    /// Takes one asking task away from a key, and gives its key; `None` exactly if no task asks for
    /// the key. It takes no memory.
    ///
    /// Each asker that it gives lowers the number of asks of tasks, so a loop over it ends.
    pub fn take_asker(&mut self, key: &Arc<K>) -> Option<Arc<K>>
        ensures tasks { KeepsTasks K.eq self.old self.new }
        ensures asked { IfSome result
            (λ j. asks K.eq self.old (arc_value key.now) (Tasked (arc_value j)) ≡ true) }
        ensures asks { IfSome result (λ j. (q : K) (a : By K)
            → asks K.eq self.new q a
            ≡ (asks K.eq self.old q a
            && not (K.eq (arc_value key.now) q && is_by K.eq (Tasked (arc_value j)) a))) }
        ensures fewer { IfSome result (λ j. ask_count self.new < ask_count self.old) }
        ensures none { IfNone result (((j : K)
            → asks K.eq self.old (arc_value key.now) (Tasked j) ≡ false)
            × KeepsAsks K.eq self.old self.new) }
        ensures room { KeepsRoom K.eq self.old self.new }
    {
        table_in_order(self);
        let Some(number) = self.number(key) else {
            return None;
        };
        self.take_asker_numbered(number)
    }

    /// Takes one asking task away from the key of a number, and gives its key; `None` exactly if no
    /// task asks for the key. All keys keep their numbers. It takes no memory.
    pub fn take_asker_numbered(&mut self, number: usize) -> Option<Arc<K>>
        requires { (k : K) × (key_at self.old number ≡ Some k) }
        ensures tasks { KeepsTasks K.eq self.old self.new }
        ensures asked { (k : K) → key_at self.old number ≡ Some k → IfSome result
            (λ j. asks K.eq self.old k (Tasked (arc_value j)) ≡ true) }
        ensures asks { (k : K) → key_at self.old number ≡ Some k → IfSome result
            (λ j. (q : K) (a : By K)
            → asks K.eq self.new q a
            ≡ (asks K.eq self.old q a
            && not (K.eq k q && is_by K.eq (Tasked (arc_value j)) a))) }
        ensures fewer { IfSome result (λ j. ask_count self.new < ask_count self.old) }
        ensures none { (k : K) → key_at self.old number ≡ Some k → IfNone result
            (((j : K) → asks K.eq self.old k (Tasked j) ≡ false)
            × KeepsAsks K.eq self.old self.new) }
        ensures room { KeepsRoom K.eq self.old self.new }
        ensures numbers { KeepsNumbers self.old self.new }
    {
        let Some((from, asker)) = pop_asker(&mut self.places, &mut self.candidates, number) else {
            return None;
        };
        drop_wait(&mut self.places, from, number);
        Some(asker)
    }

    /// Notes that the task of the key has ended, and withdraws its own asks. It takes no memory.
    pub fn ended(&mut self, key: &Arc<K>)
        ensures tasks { (q : K) → task_at K.eq self.new q ≡ task_at K.eq self.old q }
        ensures live { (q : K)
            → is_live K.eq self.new q
            ≡ (is_live K.eq self.old q && not (K.eq (arc_value key.now) q)) }
        ensures asks { (q : K) (a : By K)
            → asks K.eq self.new q a
            ≡ (asks K.eq self.old q a && not (is_by K.eq (Tasked (arc_value key.now)) a)) }
        ensures room { KeepsOtherRoom K.eq (arc_value key.now) self.old self.new }
        ensures count { live_count self.new ≤ live_count self.old }
    {
        table_in_order(self);
        let Some(number) = self.number(key) else {
            return;
        };
        self.ended_numbered(number);
    }

    /// Notes that the task of the key of a number has ended, and withdraws its own asks. It takes no
    /// memory.
    pub fn ended_numbered(&mut self, number: usize)
        requires { (k : K) × (key_at self.old number ≡ Some k) }
        ensures tasks { (q : K) → task_at K.eq self.new q ≡ task_at K.eq self.old q }
        ensures live { (k : K) → key_at self.old number ≡ Some k → (q : K)
            → is_live K.eq self.new q ≡ (is_live K.eq self.old q && not (K.eq k q)) }
        ensures asks { (k : K) → key_at self.old number ≡ Some k → (q : K) (a : By K)
            → asks K.eq self.new q a
            ≡ (asks K.eq self.old q a && not (is_by K.eq (Tasked k) a)) }
        ensures room { (k : K) → key_at self.old number ≡ Some k
            → KeepsOtherRoom K.eq k self.old self.new }
        ensures count { live_count self.new ≤ live_count self.old }
    {
        let waits = end_task(&mut self.places, self.alloc, number);
        withdraw(&mut self.places, &mut self.candidates, number, waits);
    }

    /// Takes one task out that has not ended and has no asker, and withdraws its own asks; `None`
    /// exactly if there is no such task. Called until `None` it is the cascade (`drops_unheld`). It
    /// takes no memory.
    ///
    /// Each call takes a candidate, and those are only what lost its last asker or was made without
    /// one. Each task that it gives lowers the number of tasks that have not ended, so a loop over
    /// it ends.
    pub fn next_unasked(&mut self) -> Option<(Arc<K>, T)>
        ensures some { IfSome result
            (λ r. Takes K.eq (asked_of K.eq self.old) (arc_value r.0) (asked_of K.eq self.new)) }
        ensures task { IfSome result (λ r. task_at K.eq self.old (arc_value r.0) ≡ Some r.1) }
        ensures tasks { IfSome result (λ r. (q : K)
            → task_at K.eq self.new q
            ≡ (if K.eq (arc_value r.0) q then None else task_at K.eq self.old q)) }
        ensures room { IfSome result (λ r. KeepsOtherRoom K.eq (arc_value r.0) self.old self.new) }
        ensures fewer { IfSome result (λ r. live_count self.new < live_count self.old) }
        ensures none { IfNone result (IsDone (asked_of K.eq self.old)
            × KeepsTasks K.eq self.old self.new × KeepsAsks K.eq self.old self.new
            × KeepsRoom K.eq self.old self.new) }
    {
        let Some((at, key, task, waits)) = pop_idle(
            &mut self.places,
            &mut self.candidates,
            self.alloc,
        ) else {
            return None;
        };
        withdraw(&mut self.places, &mut self.candidates, at, waits);
        Some((key, task))
    }

    /// The task of the key, ended or not.
    pub fn task(&self, key: &Arc<K>) -> Option<&T>
        ensures { option_copied result ≡ task_at K.eq self.now (arc_value key.now) }
    {
        let place = self.places.get(key)?;
        place.task.as_ref()
    }

    /// The task of the key, ended or not, to be changed. What is written changes this task alone.
    pub fn task_mut(&mut self, key: &Arc<K>) -> Option<&mut T>
        ensures* writes_back { sem 𝓛
            (LendsTask K.row T.row K.eq K.hash_input self.entry (arc_value key.now) result) }
        ensures value { option_copied_mut result ≡ task_at K.eq self.old (arc_value key.now) }
    {
        let place = self.places.get_mut(key)?;
        if !place.task.is_some() {
            return None;
        }
        place.task.as_mut()
    }

    /// The task of the key of a number, ended or not; `None` if no key has the number.
    pub fn task_numbered(&self, number: usize) -> Option<&T>
        ensures task { (k : K) → key_at self.now number ≡ Some k
            → option_copied result ≡ task_at K.eq self.now k }
        ensures none { key_at self.now number ≡ None → result ≡ None }
    {
        match self.places.get_index(number) {
            Some((_, place)) => place.task.as_ref(),
            None => None,
        }
    }

    /// The task of the key of a number, ended or not, to be changed. What is written changes this
    /// task alone, and all keys keep their numbers.
    pub fn task_mut_numbered(&mut self, number: usize) -> Option<&mut T>
        ensures* writes_back { sem 𝓛
            (LendsNumbered K.row T.row K.eq K.hash_input self.entry number result) }
        ensures value { (k : K) → key_at self.old number ≡ Some k
            → option_copied_mut result ≡ task_at K.eq self.old k }
    {
        let place = self.places.get_index_mut(number)?;
        if !place.task.is_some() {
            return None;
        }
        place.task.as_mut()
    }

    /// Whether the key has a task that has not ended.
    pub fn is_live(&self, key: &Arc<K>) -> bool
        ensures { result ≡ is_live K.eq self.now (arc_value key.now) }
    {
        match self.places.get(key) {
            Some(place) => is_running(place),
            None => false,
        }
    }

    /// Whether the key of a number has a task that has not ended; `false` if no key has the number.
    pub fn is_live_numbered(&self, number: usize) -> bool
        ensures live { (k : K) → key_at self.now number ≡ Some k
            → result ≡ is_live K.eq self.now k }
        ensures none { key_at self.now number ≡ None → result ≡ false }
    {
        match self.places.get_index(number) {
            Some((_, place)) => is_running(place),
            None => false,
        }
    }

    /// The askers of the key, which may be none. No promise and no task stands there twice.
    pub fn askers(&self, key: &Arc<K>) -> Askers<'_, K>
        ensures promises { (n : ℕ)
            → list_any (nat_eq n) result.promises.now
            ≡ asks K.eq self.now (arc_value key.now) (Promised n) }
        ensures tasks { (j : K)
            → list_any (K.eq j) (map arc_value result.tasks.now)
            ≡ asks K.eq self.now (arc_value key.now) (Tasked j) }
        ensures numbers { map (key_at self.now) result.numbers.now
            ≡ map Some (map arc_value result.tasks.now) }
        ensures distinct { AreDistinct (map arc_value result.tasks.now) }
        ensures distinct_promises { AreDistinct result.promises.now }
    {
        match self.places.get(key) {
            Some(place) => Askers {
                promises: place.promises.as_slice(),
                tasks: place.askers.values(),
                numbers: place.askers.numbers(),
            },
            None => Askers {
                promises: &[],
                tasks: &[],
                numbers: &[],
            },
        }
    }

    /// The keys that the task of the key of a number waits for, in no order; none if no key has the
    /// number. They are those that it asks for (`table_in_order`).
    pub fn waits_numbered(&self, number: usize) -> &[Arc<K>]
        ensures waits { (k : K) → key_at self.now number ≡ Some k
            → map arc_value result.now ≡ waits_at K.eq self.now k }
        ensures none { key_at self.now number ≡ None → result.now ≡ [] }
    {
        match self.places.get_index(number) {
            Some((_, place)) => place.waits.values(),
            None => &[],
        }
    }

    /// The number of a key, if it has a place. It keeps its number as long as the table lasts.
    pub fn number(&self, key: &Arc<K>) -> Option<usize>
        ensures some { IfSome result (λ n. key_at self.now n ≡ Some (arc_value key.now)) }
        ensures none { IfNone result (lookup (K.eq (arc_value key.now)) self.now ≡ None) }
    {
        self.places.get_index_of(key)
    }

    /// The numbers of the keys whose tasks ask for the key of a number, in no order.
    pub fn askers_of(&self, number: usize) -> &[usize]
        ensures { result.now ≡ askers_by K.eq self.now number }
    {
        match self.places.get_index(number) {
            Some((_, place)) => place.askers.numbers(),
            None => &[],
        }
    }

    /// The key of a number.
    pub fn key(&self, number: usize) -> Option<&Arc<K>>
        ensures { option_map arc_value (option_copied result) ≡ key_at self.now number }
    {
        match self.places.get_index(number) {
            Some((key, _)) => Some(key),
            None => None,
        }
    }
}

impl<K: Eq + Hash + Drop, T: Drop> Waits for Table<K, T> {
    ghost use Rattle.std.specs.Prelude.{length};
    ghost use Rattle.task_share.specs.Numbers.{waits_by};

    ghost waits = { λ ps n. waits_by K.eq ps n };

    ghost count = { λ ps. length ps };

    /// The numbers of the keys that the task of a number waits for, in no order.
    fn waits_of(&self, number: usize) -> &[usize] {
        match self.places.get_index(number) {
            Some((_, place)) => place.waits.numbers(),
            None => &[],
        }
    }
}

/// What every table keeps: keys that are equal are the same; a task waits for just the keys that it
/// asks for; a key whose task has not ended has one; no key stands twice; and each key that is
/// waited for has its number. It does no work, and hands these facts to its caller.
pub fn table_in_order<K: Eq + Hash + Drop, T: Drop>(table: &Table<K, T>)
    ensures equality { IsEquality K.eq }
    ensures waits { IsMirrored K.eq table.now }
    ensures there { (k : K) → is_live K.eq table.now k ≡ true → IsSome (task_at K.eq table.now k) }
    ensures distinct { AreDistinct (keys_of table.now) }
    ensures numbered { (k d : K) → list_any (K.eq d) (waits_at K.eq table.now k) ≡ true
        → key_at table.now (number_of K.eq table.now d) ≡ Some d }
{
    let _ = &table.places;
}
