//! The session.
ghost use Rattle.std.specs.Prelude.{◌≡◌, length, IfOk, IfErr, IfSome, OnOk, OnErr};
ghost use Rattle.std.specs.List.{AllZip};
ghost use Rattle.std.specs.Map.{keys_of};
ghost use Rattle.turnstile.specs.Events.{StartsWith};
ghost use Rattle.dice_core.specs.Commits.{AreSettable, IsFirstFault};
ghost use Rattle.dice_engine.specs.Lines.{AreLines, AreEventsFrom};
ghost use Rattle.dice_session.specs.Session.{IsNew, Sets, Rests, committed, fault_in, still_set, IsFound, IsRead};

use crate::client;
use crate::refusal::CommitError;
use crate::workers::Workers;
use dice_engine::{Engine, Event, Seat, Transaction, Updater};
use dice_key::{Line, NoMemory, Path, TypedKey, Universe, ValueRef, Version};
use std::alloc::Global;
use std::marker::Model;
use std::mem;
use std::sync::{Arc, Wait};

/// An engine and the seat of its one writer, the transaction that it keeps open at the newest
/// version, if any, and the changes that were set since the last commit. Contracts see its commits,
/// these changes, and the events that it has seen.
#[derive(Drop)]
pub struct Session<U: Universe> {
    engine: Arc<Engine<U>>,
    seat: Seat<U>,
    kept: Option<Transaction>,
    changes: Updater<U>,
    alloc: Global,
}

impl<U: Universe> Model for Session<U> {
    ghost use Rattle.std.specs.Arc.{arc_value};
    ghost use Rattle.dice_engine.specs.Turns.{log_of};
    ghost use Rattle.dice_session.specs.Session.{SessionView};
    ghost use Rattle.dice_session.specs.Sole.{IsReady};

    ghost Value = { SessionView U.Key U.Value };

    ghost view = { λ s. record
        { commits = log_of s.seat.seen; changes = s.changes; events = s.seat.seen } };

    ghost invariant = { λ s. IsReady (arc_value s.engine) s.seat s.kept };
}

/// What a key came to.
#[derive(Drop)]
pub enum Found<U: Universe> {
    /// This value.
    Value(ValueRef<U>),
    /// It reaches this cycle, and so has no value.
    Cycle(Arc<Path<U::Key>>),
}

impl<U: Universe> Session<U> {
    /// A session over a universe, without commits. What it makes later is allocated by `alloc`.
    pub fn new<R: Wait>(rt: &R, alloc: Global, universe: U) -> Result<Session<U>, NoMemory>
        ensures { IfOk result IsNew }
    {
        let universe = Arc::new(alloc, universe)?;
        let (engine, seat) = Engine::new(rt, alloc, universe, 1)?;
        let engine = Arc::new(alloc, engine)?;
        let changes = Updater::new(alloc);
        Ok(Session {
            engine,
            seat,
            kept: None,
            changes,
            alloc,
        })
    }

    /// Sets an injected key to a value, from the next commit on. A key is set at most once between
    /// two commits. If memory is refused nothing changes.
    pub fn set(&mut self, key: U::Key, value: U::Value) -> Result<(), NoMemory>
        ensures ok { OnOk result (Sets self.old key value self.new) }
        ensures err { OnErr result (self.new ≡ self.old) }
    {
        let key = Arc::new(self.alloc, key)?;
        let value = Arc::new(self.alloc, value)?;
        self.changes.changed_to(key, value)
    }

    /// Commits what was set since the last commit, and answers the newest version. Changes to the
    /// value that a key has already are left out; if none is left there is no commit.
    ///
    /// If one of the changes is at fault the commits stay, and all the changes are let go. If
    /// memory is refused nothing changes.
    pub fn commit<R: Wait>(&mut self, rt: &R) -> Result<Version, CommitError<U>>
        ensures ok { OnOk result (self.new.commits
            ≡ committed U.Key.eq U.Value.eq U.meaning self.old.commits self.old.changes) }
        ensures version { IfOk result (λ v. v ≡ length self.new.commits) }
        ensures settable { OnOk result (AreSettable U.meaning (keys_of self.old.changes)) }
        ensures fault { IfErr result
            (λ e. IfSome (fault_in e) (IsFirstFault U.meaning (keys_of self.old.changes))) }
        ensures changes { self.new.changes ≡ still_set result self.old.changes }
        ensures events { StartsWith self.new.events self.old.events }
        ensures err { OnErr result (self.new.commits ≡ self.old.commits) }
    {
        let changes = mem::replace(&mut self.changes, Updater::new(self.alloc));
        match client::commit(rt, &*self.engine, &mut self.seat, &mut self.kept, &changes) {
            Ok(version) => Ok(version),
            Err(CommitError::NoMemory) => {
                self.changes = changes;
                Err(CommitError::NoMemory)
            }
            Err(fault) => Err(fault),
        }
    }

    /// What the key comes to at the newest version. It does the work itself, as far as no worker
    /// does.
    pub fn compute<R: Wait>(&mut self, rt: &R, key: U::Key) -> Result<Found<U>, NoMemory>
        ensures rests { Rests self.old self.new }
        ensures found { IfOk result (IsFound U.Key.eq U.meaning self.old.commits key) }
    {
        let key = Arc::new(self.alloc, key)?;
        client::compute(rt, &*self.engine, &mut self.seat, &mut self.kept, key)
    }

    /// What these keys come to at the newest version, each as by `compute`, in their order. They
    /// are asked in one transaction, so work that they share is done once.
    pub fn compute_all<R: Wait>(
        &mut self,
        rt: &R,
        keys: Vec<U::Key>,
    ) -> Result<Vec<Found<U>>, NoMemory>
        ensures rests { Rests self.old self.new }
        ensures found { IfOk result
            (λ v. AllZip (IsFound U.Key.eq U.meaning self.old.commits) keys.items v.items) }
    {
        client::compute_all(
            rt,
            self.alloc,
            &*self.engine,
            &mut self.seat,
            &mut self.kept,
            keys,
        )
    }

    /// What the value of a key of this kind holds at the newest version. It is `None` if the key
    /// reaches a cycle, or was set to a value of another kind.
    pub fn get<R: Wait, K: TypedKey<U>>(
        &mut self,
        rt: &R,
        key: K,
    ) -> Result<Option<K::Out>, NoMemory>
    where
        K::Out: Copy,
        ensures rests { Rests self.old self.new }
        ensures read { IfOk result
            (IsRead U.Key.eq U.meaning self.old.commits (K.wrapped key) K.reads) }
    {
        match self.compute(rt, key.wrap())? {
            Found::Value(value) => Ok(K::read(&*value).copied()),
            Found::Cycle(_) => Ok(None),
        }
    }

    /// The lines of the journal, one for each event, in order.
    pub fn log<R: Wait>(&mut self, rt: &R) -> Result<Vec<Line>, NoMemory>
        ensures rests { Rests self.old self.new }
        ensures lines { IfOk result (λ ls. AreLines U.meaning self.new.events ls.items) }
    {
        self.engine.log(rt, self.alloc, &mut self.seat)
    }

    /// How many events there are: the point at which the next one will stand.
    pub fn point<R: Wait>(&mut self, rt: &R) -> usize
        ensures rests { Rests self.old self.new }
        ensures count { result ≡ length self.new.events }
    {
        self.engine.event_count(rt, &mut self.seat)
    }

    /// The events since a point, in order. They tell what was computed (`Start`), kept (`Keep`) and
    /// ended (`End`), and why.
    pub fn events_since<R: Wait>(
        &mut self,
        rt: &R,
        point: usize,
    ) -> Result<Vec<Event<U::Key, U::Value>>, NoMemory>
        ensures rests { Rests self.old self.new }
        ensures events { IfOk result (λ es. AreEventsFrom point self.new.events es.items) }
    {
        self.engine.events(rt, self.alloc, &mut self.seat, point)
    }

    /// So many workers for this session, who wait to be begun. They are fewer if no numbers for
    /// their seats are left.
    pub fn workers(&mut self, count: u32) -> Result<Workers<U>, NoMemory>
        ensures { self.new ≡ self.old }
    {
        let engine = Arc::try_clone(&self.engine)?;
        let count = u64::from(count).min(self.seat.spare());
        let seats = engine.split_seats(self.alloc, &mut self.seat, count)?;
        Ok(Workers { engine, seats })
    }
}
