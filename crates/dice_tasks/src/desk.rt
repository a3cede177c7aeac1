//! The desk: the journal, and which tasks are ready, which are out, and how many are at work.
ghost use Rattle.std.specs.Prelude.{◌≡◌, ◌<◌, ◌≤◌, ◌+◌, ◌*◌, ◌++◌, [], ◌∷◌, ℕ, List, length, Some, None, IfOk, IfSome, IfNone, OnOk, OnErr};
ghost use Rattle.std.specs.Arc.{arc_value};
ghost use Rattle.journal.specs.Tell.{told};
ghost use Rattle.dice_tasks.specs.Hands.{place_at, with_event, with_made, with_ended, with_told_next, KeepsHands, KeepsDeskRoom, HasDeskRoom, Takes, Returns, Leaves, Readies, Unreadies};
ghost use Rattle.dice_tasks.specs.Orders.{Reorders};
ghost use Rattle.dice_tasks.specs.Shelves.{place_of};
ghost use Rattle.lists.specs.Lists.{Has};

use crate::line::Line;
use crate::shelf::{ReadyTask, Shelf, index_of, put_back, put_in, take_away, take_out};
use dice_key::{KeyRef, NoMemory, Seed, Universe};
use indexmap::IndexSet;
use journal::{Event, Journal};
use std::alloc::Global;
use std::marker::Model;

/// The journal, and what is counted over the tasks of all versions, with room made ahead.
pub struct Desk<U: Universe> {
    journal: Journal<U>,
    /// The ready tasks, and then those that are out.
    at_hand: Shelf<U>,
    ready: usize,
    line: Line,
    ready_room: usize,
    live: usize,
    live_room: usize,
    ended: Vec<KeyRef<U>>,
}

// (One function for all places that drop one: a derived drop is written out at each.)
impl<U: Universe> Drop for Desk<U> {
    fn drop(self) {
        let Desk {
            journal: _journal,
            at_hand: _at_hand,
            ready: _,
            line: _,
            ready_room: _,
            live: _,
            live_room: _,
            ended: _ended,
        } = self;
    }
}

impl<U: Universe> Model for Desk<U> {
    ghost use Rattle.std.specs.Prelude.{map};
    ghost use Rattle.std.specs.Arc.{arc_value};
    ghost use Rattle.dice_tasks.specs.Hands.{DeskSeen};

    ghost Value = { DeskSeen U.Key U.Value };

    ghost use Rattle.dice_tasks.specs.Shelves.{ready_of, out_of, IsLaid};
    ghost use Rattle.std.specs.Prelude.{◌≤◌, ◌<◌, ◌+◌, ◌^◌, length, vec_capacity};
    ghost use Rattle.indexmap.specs.IndexSet.{spare};

    ghost view = { λ d. record {
      events = d.journal.events;
      ready = ready_of d.ready d.at_hand.keys;
      out = out_of d.ready d.at_hand.keys;
      live = d.live;
      ended = map arc_value d.ended.items;
      spare = d.journal.spare;
      ready_room = d.ready_room;
      live_room = d.live_room;
    } };

    ghost invariant = { λ d. IsLaid d.ready d.at_hand.keys × (d.ready_room ≤ spare d.at_hand)
        × (length d.ended.items + d.live + d.live_room ≤ vec_capacity d.ended)
        × (d.live + d.live_room < 2 ^ 64) };
}

impl<U: Universe> Desk<U> {
    /// No events, no tasks and no room. Ready tasks are hashed by this seed. It takes no memory.
    pub fn new(alloc: Global, seed: Seed) -> Desk<U>
        ensures { result
            ≡ record {
              events = [];
              ready = [];
              out = [];
              live = 0;
              ended = [];
              spare = 0;
              ready_room = 0;
              live_room = 0;
            } }
    {
        Desk {
            journal: Journal::new(alloc),
            at_hand: IndexSet::with_hasher(alloc, seed),
            ready: 0,
            line: Line::new(),
            ready_room: 0,
            live: 0,
            live_room: 0,
            ended: Vec::new(alloc),
        }
    }

    /// What its tables hash keys by.
    pub fn seed(&self) -> Seed {
        *self.at_hand.hasher()
    }

    /// The journal.
    pub fn journal(&self) -> &Journal<U>
        ensures { (result.now.events ≡ self.now.events) × (result.now.spare ≡ self.now.spare) }
    {
        &self.journal
    }

    /// Makes room for `tasks` tasks to be made or to become ready; for two events for each task at
    /// work and each of these; and for `owed` and `more` events beside. Nothing else changes, even
    /// if memory is refused.
    pub fn reserve(&mut self, owed: usize, more: usize, tasks: usize) -> Result<(), NoMemory>
        ensures same { KeepsHands self.old self.new }
        ensures room { KeepsDeskRoom self.old self.new }
        ensures ok { OnOk result (HasDeskRoom owed more tasks self.new) }
    {
        let events = events_wanted(self.live, tasks, owed, more)?;
        self.journal.reserve(events)?;
        self.reserve_ready(tasks)?;
        self.reserve_live(tasks)
    }

    /// The index of the next event, which is below the greatest number.
    pub fn next_index(&self) -> Result<u64, NoMemory>
        ensures { IfOk result (λ n. (n ≡ length self.now.events) × (n < u64.MAX)) }
    {
        let len = self.journal.len();
        // No memory holds so many events that there is no next number; a length does not tell that,
        // so it is refused here.
        let _next = len.checked_add(1).ok_or(NoMemory)?;
        Ok(len as u64)
    }

    /// Makes room for one event more than there is room for. Nothing else changes.
    pub fn reserve_event(&mut self) -> Result<(), NoMemory>
        ensures same { KeepsHands self.old self.new }
        ensures room { KeepsDeskRoom self.old self.new }
        ensures ok { OnOk result (self.old.spare < self.new.spare) }
    {
        let room = self.journal.spare().checked_add(1).ok_or(NoMemory)?;
        self.journal.reserve(room)
    }

    /// Appends an event to the journal, in room made ahead. It takes no memory.
    pub fn push(&mut self, event: Event<U::Key, U::Value>)
        requires { 0 < self.old.spare }
        ensures { self.new ≡ with_event self.old (told event) }
    {
        self.journal.push_reserved(event);
    }

    /// Brings the ready task that is to be taken next to the end of the ready ones. It takes no
    /// memory.
    pub fn turn(&mut self)
        ensures { Reorders self.old self.new }
    {
        if self.ready > 0 && !self.line.goes_on::<U>(&self.at_hand, self.ready) {
            self.line.call::<U>(&mut self.at_hand, self.ready);
        }
    }

    /// The ready task that is to be taken next, after a turn.
    pub fn next_ready(&self) -> Option<&ReadyTask<U::Key>>
        ensures some { IfSome result
            (λ r. (ps : List (ℕ × U.Key)) × (self.now.ready ≡ ps ++ place_of r.now ∷ [])) }
        ensures none { IfNone result (self.now.ready ≡ []) }
    {
        if self.ready == 0 {
            return None;
        }
        self.at_hand.get_index(self.ready - 1)
    }

    /// The number of a task among those that are ready or out.
    pub(crate) fn index_of(&self, version: u64, key: &KeyRef<U>) -> Option<usize>
        ensures some { IfSome result
            (λ i. place_at self.now i ≡ Some (version, arc_value key.now)) }
        ensures none { IfNone result
            (Has (self.now.ready ++ self.now.out) (version, arc_value key.now) → ⊥) }
    {
        index_of::<U>(&self.at_hand, self.ready, version, key)
    }

    /// The key of the task of this number.
    pub(crate) fn key_at(&self, index: usize) -> Option<&KeyRef<U>>
        ensures some { IfSome result
            (λ k. (v : ℕ) × (place_at self.now index ≡ Some (v, arc_value k.now))) }
        ensures none { IfNone result (place_at self.now index ≡ None) }
    {
        match self.at_hand.get_index(index) {
            Some(task) => Some(&task.key),
            None => None,
        }
    }

    /// The task that is to be taken next is taken: it goes out.
    pub(crate) fn taken(&mut self)
        requires { 0 < length self.old.ready }
        ensures { (p : ℕ × U.Key) × Takes p self.old self.new }
    {
        self.ready -= 1;
    }

    /// A task that is out becomes ready again. It takes no memory.
    pub(crate) fn returned(&mut self, version: u64, key: &KeyRef<U>)
        requires { Has self.old.out (version, arc_value key.now) }
        ensures { Returns (version, arc_value key.now) self.old self.new }
    {
        put_back::<U>(&mut self.at_hand, self.ready, version, key);
        self.ready += 1;
    }

    /// A task that is out waits, or has ended. It takes no memory.
    pub(crate) fn left(&mut self, version: u64, key: &KeyRef<U>)
        requires { Has self.old.out (version, arc_value key.now) }
        ensures { Leaves (version, arc_value key.now) self.old self.new }
    {
        take_away::<U>(&mut self.at_hand, self.ready, version, key);
    }

    /// A task that was made, or whose batch is answered, becomes ready, in room made ahead. It
    /// takes no memory.
    pub fn readied(&mut self, task: ReadyTask<U::Key>)
        requires ready { Has self.old.ready (place_of task) → ⊥ }
        requires out { Has self.old.out (place_of task) → ⊥ }
        requires room { 0 < self.old.ready_room }
        ensures { Readies (place_of task) self.old self.new }
    {
        put_in::<U>(&mut self.at_hand, self.ready, task);
        self.ready += 1;
        self.ready_room -= 1;
    }

    /// A ready task has ended. It takes no memory.
    pub(crate) fn unreadied(&mut self, version: u64, key: &KeyRef<U>)
        requires { Has self.old.ready (version, arc_value key.now) }
        ensures { Unreadies (version, arc_value key.now) self.old self.new }
    {
        self.ready -= 1;
        self.line.shorten(self.ready);
        take_out::<U>(&mut self.at_hand, self.ready, version, key);
    }

    /// A task was made, in room made ahead.
    pub(crate) fn made(&mut self)
        requires { 0 < self.old.live_room }
        ensures { self.new ≡ with_made self.old }
    {
        self.live += 1;
        self.live_room -= 1;
    }

    /// A task at work has ended.
    pub(crate) fn ended(&mut self)
        requires { 0 < self.old.live }
        ensures { self.new ≡ with_ended self.old }
    {
        self.live -= 1;
        self.live_room += 1;
    }

    /// Puts a key whose task has ended on the list of those whose askers are to be told, in room
    /// that the end left. It takes no memory.
    pub(crate) fn push_ended(&mut self, key: KeyRef<U>)
        requires { 0 < self.old.live_room }
        ensures { self.new ≡ with_told_next self.old (arc_value key) }
    {
        self.ended.push_reserved(key);
        self.live_room -= 1;
    }

    /// The last key on the list of those whose askers are to be told.
    pub(crate) fn last_ended(&self) -> Option<&KeyRef<U>>
        ensures some { IfSome result
            (λ k. (ks : List U.Key) × (self.now.ended ≡ ks ++ arc_value k.now ∷ [])) }
        ensures none { IfNone result (self.now.ended ≡ []) }
    {
        self.ended.last()
    }

    /// Takes the last key from the list.
    pub(crate) fn pop_ended(&mut self)
        requires { 0 < length self.old.ended }
        ensures { (k : U.Key) × (self.old ≡ with_told_next self.new k) × (0 < self.new.live_room) }
    {
        self.ended.pop();
        self.live_room += 1;
    }

    /// How many tasks are ready.
    pub fn ready(&self) -> usize
        ensures { result ≡ length self.now.ready }
    {
        self.ready
    }

    /// How many tasks are out.
    pub fn out(&self) -> usize
        ensures { result ≡ length self.now.out }
    {
        self.at_hand.len() - self.ready
    }

    /// How many tasks are at work.
    pub(crate) fn live(&self) -> usize
        ensures { result ≡ self.now.live }
    {
        self.live
    }

    /// Makes room for so many more tasks to become ready.
    fn reserve_ready(&mut self, tasks: usize) -> Result<(), NoMemory>
        ensures same { KeepsHands self.old self.new }
        ensures room { KeepsDeskRoom self.old self.new }
        ensures live { self.new.live_room ≡ self.old.live_room }
        ensures ok { OnOk result (tasks ≤ self.new.ready_room) }
    {
        if self.ready_room < tasks {
            self.at_hand.reserve(tasks)?;
            self.ready_room = tasks;
        }
        Ok(())
    }

    /// Makes room for so many more tasks to be made.
    fn reserve_live(&mut self, tasks: usize) -> Result<(), NoMemory>
        ensures same { KeepsHands self.old self.new }
        ensures room { KeepsDeskRoom self.old self.new }
        ensures ready { self.new.ready_room ≡ self.old.ready_room }
        ensures spare { self.new.spare ≡ self.old.spare }
        ensures ok { OnOk result (tasks ≤ self.new.live_room) }
    {
        if self.live_room < tasks {
            let most = self.live.checked_add(tasks).ok_or(NoMemory)?;
            self.ended.reserve(most)?;
            self.live_room = tasks;
        }
        Ok(())
    }
}

/// How many events there has to be room for: two for each task at work and each that may be made,
/// and those beside.
fn events_wanted(live: usize, tasks: usize, owed: usize, more: usize) -> Result<usize, NoMemory>
    ensures { IfOk result (λ n. n ≡ 2 * (live + tasks) + (owed + more)) }
{
    // Room for more events than a number counts is more than any memory has, and is refused as
    // such.
    let works = live.checked_add(tasks).ok_or(NoMemory)?;
    let ends = works.checked_mul(2).ok_or(NoMemory)?;
    let others = owed.checked_add(more).ok_or(NoMemory)?;
    ends.checked_add(others).ok_or(NoMemory)
}
