//! The journal.
ghost use Rattle.std.specs.Prelude.{◌≡◌, ◌+◌, ◌≤◌, ◌<◌, [], ◌∷◌, ◌++◌, ℕ, List, map, OnOk, OnErr, IfOk, length, slice_get, Some};
ghost use Rattle.journal.specs.Texts.{IsLine};
ghost use Rattle.journal.specs.declared.event.Told.{Told};
ghost use Rattle.journal.specs.Tell.{told};

use crate::event::Event;
use crate::line::line_of;
use dice_key::{Line, NoMemory, Universe};
use std::alloc::Global;
use std::marker::Model;

/// Events in the order in which they happened, with room for more made ahead. The index of an event
/// is the number of events before it.
#[derive(Drop)]
pub struct Journal<U: Universe> {
    events: Vec<Event<U::Key, U::Value>>,
    spare: usize,
}

impl<U: Universe> Model for Journal<U> {
    ghost use Rattle.std.specs.Prelude.{◌+◌, ◌≤◌, map, length, vec_capacity};
    ghost use Rattle.journal.specs.Shape.{Written};

    ghost Value = { Written U.Key U.Value };

    ghost use Rattle.journal.specs.Tell.{told};

    ghost view = { λ j. record { events = map told j.events.items; spare = j.spare } };

    ghost invariant = { λ j. length j.events.items + j.spare ≤ vec_capacity j.events };
}

impl<U: Universe> Journal<U> {
    /// No event, and no room. It takes no memory.
    pub fn new(alloc: Global) -> Journal<U>
        ensures { (result.events ≡ []) × (result.spare ≡ 0) }
    {
        Journal {
            events: Vec::new(alloc),
            spare: 0,
        }
    }

    /// Makes room for at least `n` more events; no event changes, even if memory is refused, and
    /// room that was made stays.
    pub fn reserve(&mut self, n: usize) -> Result<(), NoMemory>
        ensures same { self.new.events ≡ self.old.events }
        ensures ok { OnOk result (n ≤ self.new.spare) }
        ensures room { self.old.spare ≤ self.new.spare }
    {
        if n <= self.spare {
            return Ok(());
        }
        self.events.reserve(n)?;
        self.spare = n;
        Ok(())
    }

    /// Appends an event into room that was made. It takes no memory.
    pub fn push_reserved(&mut self, event: Event<U::Key, U::Value>)
        requires { 0 < self.old.spare }
        ensures events { self.new.events ≡ self.old.events ++ told event ∷ [] }
        ensures spare { self.new.spare + 1 ≡ self.old.spare }
    {
        self.events.push_reserved(event);
        self.spare -= 1;
    }

    /// How many events there are.
    pub fn len(&self) -> usize
        ensures { result ≡ length self.now.events }
    {
        self.events.len()
    }

    /// How many events there is room for.
    pub fn spare(&self) -> usize
        ensures { result ≡ self.now.spare }
    {
        self.spare
    }

    /// The event of this index.
    pub fn event(&self, index: usize) -> &Event<U::Key, U::Value>
        requires { index < length self.now.events }
        ensures { slice_get self.now.events index ≡ Some (told result.now) }
    {
        &self.events[index]
    }

    /// The line of the event of this index, as the trace of a run has it; its keys print as the
    /// universe has them.
    pub fn line(&self, index: usize, universe: &U, alloc: Global) -> Result<Line, NoMemory>
        requires { index < length self.now.events }
        ensures { IfOk result (λ t. (e : Told U.Key U.Value)
            → slice_get self.now.events index ≡ Some e → IsLine U.meaning e t) }
    {
        line_of(alloc, universe, self.event(index))
    }
}
