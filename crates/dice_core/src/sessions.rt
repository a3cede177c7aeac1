//! What is open: transactions, and the asks in them.
ghost use Rattle.std.specs.Prelude.{◌≡◌, ◌+◌, ◌<◌, ℕ, List, [], ◌∷◌, nat_eq, true, false, Some, None, length, is_some, if◌then◌else◌, IfOk, IfSome, IfNone, OnOk, OnErr};
ghost use Rattle.std.specs.Arc.{arc_value};
ghost use Rattle.std.specs.Option.{option_copied};
ghost use Rattle.journal.specs.Events.{Opened};
ghost use Rattle.journal.specs.Tell.{told};
ghost use Rattle.journal.specs.declared.event.Told.{Told};
ghost use Rattle.journal.specs.declared.event.Told.TheVariants.{Open, Ask, Leave};
ghost use Rattle.version_epoch.specs.Standings.{open_count_of, epoch_of};
ghost use Rattle.dice_core.specs.Sessions.{opened_of, has_ask, opened_in, room_in, AsksTurn, session_at, transaction_at, ask_at, ask_room, owed, IsSame, Opens, Asks, Leaves, Closes, Takes, SessionsStand, Closing};

use dice_key::{KeyRef, NoMemory, Universe};
use indexmap::IndexSet;
use journal::Event;
use std::alloc::Global;
use std::collections::HashMap;
use std::marker::Model;
use std::sync::Arc;
use version_epoch::Tracker;

/// An open transaction: the seat that opened it, its version, and the indices of its asks that were
/// not left.
#[derive(Drop)]
pub(crate) struct Session {
    by: u64,
    version: u64,
    asks: IndexSet<u64>,
}

impl Model for Session {
    ghost use Rattle.std.specs.HashSet.{spare};
    ghost use Rattle.dice_core.specs.Sessions.{SessionSeen};

    ghost Value = { SessionSeen };

    ghost view = { λ s. record
        { by = s.by; version = s.version; asks = s.asks.keys; room = spare s.asks } };
}

impl Session {
    /// The number of the seat that opened it.
    pub(crate) fn by(&self) -> u64
        ensures { result ≡ self.now.by }
    {
        self.by
    }

    /// The version that it reads.
    pub(crate) fn version(&self) -> u64
        ensures { result ≡ self.now.version }
    {
        self.version
    }

    /// Takes one ask out of the list. It takes no memory.
    pub(crate) fn pop_ask(&mut self) -> Option<u64>
        ensures opened { opened_of self.new ≡ opened_of self.old }
        ensures some { IfSome result (λ i. (has_ask self.old.asks i ≡ true)
            × ((q : ℕ)
            → has_ask self.new.asks q ≡ (if nat_eq i q then false else has_ask self.old.asks q))) }
        ensures none { IfNone result (self.old.asks ≡ []) }
        ensures shorter { IfSome result (λ i. length self.new.asks < length self.old.asks) }
    {
        self.asks.pop()
    }

    /// Makes room for one more ask.
    fn reserve_ask(&mut self) -> Result<(), NoMemory>
        ensures opened { opened_of self.new ≡ opened_of self.old }
        ensures asks { self.new.asks ≡ self.old.asks }
        ensures ok { OnOk result (0 < self.new.room) }
    {
        self.asks.reserve(1)?;
        Ok(())
    }

    /// Lists an ask, in room made ahead.
    fn add_ask(&mut self, index: u64)
        requires { 0 < self.old.room }
        ensures opened { opened_of self.new ≡ opened_of self.old }
        ensures asks { (q : ℕ)
            → has_ask self.new.asks q ≡ (if nat_eq index q then true else has_ask self.old.asks q) }
    {
        let _ = self.asks.insert(index);
    }

    /// Takes an ask out of the list.
    fn drop_ask(&mut self, index: u64)
        ensures opened { opened_of self.new ≡ opened_of self.old }
        ensures asks { (q : ℕ)
            → has_ask self.new.asks q
            ≡ (if nat_eq index q then false else has_ask self.old.asks q) }
    {
        self.asks.swap_remove(&index);
    }
}

/// Makes room for one more ask of a transaction.
fn reserve_in(transactions: &mut HashMap<u64, Session>, tx: u64) -> Result<(), NoMemory>
    ensures same { AsksTurn tx (λ i b. b) transactions.old.entries transactions.new.entries }
    ensures ok { OnOk result (is_some (opened_in transactions.old.entries tx) ≡ true
        → 0 < room_in transactions.new.entries tx) }
{
    let Some(session) = transactions.get_mut(&tx) else {
        return Ok(());
    };
    session.reserve_ask()
}

/// Lists an ask in its transaction, in room made ahead.
fn list_in(transactions: &mut HashMap<u64, Session>, tx: u64, index: u64)
    requires { 0 < room_in transactions.old.entries tx }
    ensures { AsksTurn tx (λ i b. if nat_eq index i then true else b) transactions.old.entries
        transactions.new.entries }
{
    let Some(session) = transactions.get_mut(&tx) else {
        return;
    };
    session.add_ask(index);
}

/// Takes an ask out of the list of its transaction.
fn unlist_in(transactions: &mut HashMap<u64, Session>, tx: u64, index: u64)
    ensures { AsksTurn tx (λ i b. if nat_eq index i then false else b) transactions.old.entries
        transactions.new.entries }
{
    let Some(session) = transactions.get_mut(&tx) else {
        return;
    };
    session.drop_ask(index);
}

/// An ask that was not left: the seat that asked, the index of the transaction, and the key.
#[derive(Drop)]
pub(crate) struct Asking<U: Universe> {
    by: u64,
    opened: u64,
    key: KeyRef<U>,
}

impl<U: Universe> Model for Asking<U> {
    ghost use Rattle.std.specs.Arc.{arc_value};
    ghost use Rattle.journal.specs.Events.{Asking as Seen};

    ghost Value = { Seen U.Key };

    ghost view = { λ a. record { by = a.by; opened = a.opened; key = arc_value a.key } };
}

impl<U: Universe> Asking<U> {
    /// An ask of a seat for a key, in the transaction of this index.
    pub(crate) fn new(by: u64, opened: u64, key: KeyRef<U>) -> Asking<U>
        ensures { result ≡ record { by = by; opened = opened; key = arc_value key } }
    {
        Asking { by, opened, key }
    }

    /// The event that tells it.
    pub(crate) fn told(&self) -> Result<Event<U::Key, U::Value>, NoMemory>
        ensures { IfOk result
            (λ e. told e ≡ Ask self.now.by self.now.opened self.now.key) }
    {
        Ok(Event::Ask(self.by, self.opened, Arc::try_clone(&self.key)?))
    }

    /// The number of the seat that asked.
    pub(crate) fn by(&self) -> u64
        ensures { result ≡ self.now.by }
    {
        self.by
    }

    /// The index of the transaction.
    pub(crate) fn opened(&self) -> u64
        ensures { result ≡ self.now.opened }
    {
        self.opened
    }

    /// The key.
    pub(crate) fn key(&self) -> &KeyRef<U>
        ensures { arc_value result.now ≡ self.now.key }
    {
        &self.key
    }
}

/// What is open: the transactions and the asks that were not left, by the indices of their events,
/// and how often each version is open.
///
/// Each call costs a look-up or a few.
#[derive(Drop)]
pub(crate) struct Sessions<U: Universe> {
    alloc: Global,
    transactions: HashMap<u64, Session>,
    asks: HashMap<u64, Asking<U>>,
    epochs: Tracker,
}

impl<U: Universe> Model for Sessions<U> {
    ghost use Rattle.std.specs.HashMap.{spare};
    ghost use Rattle.dice_core.specs.Sessions.{SessionsSeen};

    ghost Value = { SessionsSeen U.Key };

    ghost view = { λ s. record {
      transactions = s.transactions.entries;
      asks = s.asks.entries;
      epochs = s.epochs;
      room = spare s.asks;
    } };
}

impl<U: Universe> Sessions<U> {
    /// Nothing is open. It takes no memory.
    pub(crate) fn new(alloc: Global) -> Sessions<U>
        ensures owed { owed result ≡ 0 }
        ensures stands { SessionsStand {K = U.Key} {V = U.Value} [] result }
    {
        Sessions {
            alloc,
            transactions: HashMap::new(alloc),
            asks: HashMap::new(alloc),
            epochs: Tracker::new(alloc),
        }
    }

    /// Whether the transaction of this index is open.
    pub(crate) fn is_open(&self, tx: u64) -> bool
        ensures { result ≡ is_some (transaction_at self.now tx) }
    {
        self.transactions.contains_key(&tx)
    }

    /// Whether the ask of this index was not left, and its transaction is open.
    pub(crate) fn stands(&self, ask: u64) -> bool
        ensures { result ≡ is_some (ask_at self.now ask) }
    {
        self.asks.contains_key(&ask)
    }

    /// The transaction of this index, if it is open.
    pub(crate) fn session(&self, tx: u64) -> Option<&Session>
        ensures { option_copied result ≡ session_at self.now tx }
    {
        self.transactions.get(&tx)
    }

    /// The ask of this index, if it stands.
    pub(crate) fn asking(&self, ask: u64) -> Option<&Asking<U>>
        ensures { option_copied result ≡ ask_at self.now ask }
    {
        self.asks.get(&ask)
    }

    /// How many transactions are open at a version.
    pub(crate) fn open_count(&self, version: u64) -> u64
        ensures { result ≡ open_count_of self.now.epochs version }
    {
        self.epochs.open_count(version)
    }

    /// How many events are still to come for what is open: one for each transaction, and one for
    /// each ask.
    pub(crate) fn owed(&self) -> usize
        ensures { result ≡ owed self.now }
    {
        self.transactions.len() + self.asks.len()
    }

    /// A transaction is opened at a version, by a seat; its index is that of the Open, which is
    /// written next. If memory is refused nothing changes.
    pub(crate) fn open(&mut self, index: u64, by: u64, version: u64) -> Result<(), NoMemory>
        requires fresh { transaction_at self.old index ≡ None }
        requires count { open_count_of self.old.epochs version < u64.MAX }
        requires epoch { epoch_of self.old.epochs version < u64.MAX }
        ensures ok { OnOk result (Opens index by version self.old self.new) }
        ensures stands { OnOk result ((R : List (Told U.Key U.Value)) → SessionsStand R self.old
            → length R ≡ index → SessionsStand (Open by version ∷ R) self.new) }
        ensures err { OnErr result (IsSame self.old self.new) }
    {
        self.transactions.reserve(1)?;
        let Ok(()) = self.epochs.open(version) else {
            return Err(NoMemory);
        };
        let session = Session {
            by,
            version,
            asks: IndexSet::new(self.alloc),
        };
        let _ = self.transactions.insert(index, session);
        Ok(())
    }

    /// Makes room for one more ask of a transaction. Nothing else changes.
    pub(crate) fn reserve_ask(&mut self, tx: u64) -> Result<(), NoMemory>
        ensures same { IsSame self.old self.new }
        ensures ok { OnOk result (is_some (transaction_at self.old tx) ≡ true
            → (0 < self.new.room) × (0 < ask_room self.new tx)) }
        ensures stands { (R : List (Told U.Key U.Value)) → SessionsStand R self.old
            → SessionsStand R self.new }
    {
        self.asks.reserve(1)?;
        reserve_in(&mut self.transactions, tx)
    }

    /// In an open transaction a seat asks for a key; the index is that of the Ask, which is written
    /// next. It takes the room that was made for it, and no memory.
    pub(crate) fn ask(&mut self, index: u64, asking: Asking<U>)
        requires fresh { ask_at self.old index ≡ None }
        requires room { 0 < self.old.room }
        requires listed { 0 < ask_room self.old asking.opened }
        ensures exact { Asks index asking self.old self.new }
        ensures stands { (R : List (Told U.Key U.Value)) → SessionsStand R self.old → length R
            ≡ index → SessionsStand (Ask asking.by asking.opened asking.key ∷ R) self.new }
    {
        let tx = asking.opened;
        let _ = self.asks.insert(index, asking);
        list_in(&mut self.transactions, tx, index);
    }

    /// An ask is left: it is taken out, if it stands. It takes no memory.
    pub(crate) fn leave(&mut self, ask: u64) -> Option<Asking<U>>
        ensures result { result ≡ ask_at self.old ask }
        ensures some { IfSome result (λ a. Leaves ask a self.old self.new) }
        ensures none { IfNone result (IsSame self.old self.new) }
        ensures stands { IfSome result (λ a. (R : List (Told U.Key U.Value)) (by : ℕ)
            → SessionsStand R self.old → SessionsStand (Leave by ask ∷ R) self.new) }
    {
        let asking = self.asks.remove(&ask)?;
        unlist_in(&mut self.transactions, asking.opened, ask);
        Some(asking)
    }

    /// A transaction is closed: it is taken out, if it is open. Its asks are still to be taken out,
    /// one by one. It takes no memory.
    pub(crate) fn close(&mut self, tx: u64) -> Option<Session>
        requires { (o : Opened) → transaction_at self.old tx ≡ Some o
            → 0 < open_count_of self.old.epochs o.version }
        ensures result { result ≡ session_at self.old tx }
        ensures some { IfSome result (λ s. Closes tx s.version self.old self.new) }
        ensures none { IfNone result (IsSame self.old self.new) }
        ensures stands { IfSome result (λ s. (R : List (Told U.Key U.Value)) (by : ℕ)
            → SessionsStand R self.old → Closing R by tx s.asks self.new) }
    {
        let session = self.transactions.remove(&tx)?;
        self.epochs.close(session.version);
        Some(session)
    }

    /// Takes out an ask of a transaction that was closed. It takes no memory.
    pub(crate) fn take_ask(&mut self, ask: u64) -> Option<Asking<U>>
        ensures result { result ≡ ask_at self.old ask }
        ensures some { IfSome result (λ a. Takes ask self.old self.new) }
        ensures none { IfNone result (IsSame self.old self.new) }
        ensures stands { IfSome result (λ a. (R : List (Told U.Key U.Value)) (by t : ℕ)
            (rest left : List ℕ) → Closing R by t rest self.old → has_ask rest ask ≡ true
            → ((q : ℕ) → has_ask left q ≡ (if nat_eq ask q then false else has_ask rest q))
            → Closing R by t left self.new) }
    {
        self.asks.remove(&ask)
    }
}
