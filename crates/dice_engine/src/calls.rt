//! The calls of an engine that take one turn each.
ghost use Rattle.std.specs.Prelude.{◌≡◌, ℕ, ◌≤◌, ◌+◌, [], length, None, MatchResult, IfOk, IfErr, IfSome, OnOk, OnErr};
ghost use Rattle.std.specs.Arc.{arc_value};
ghost use Rattle.std.specs.Map.{keys_of};
ghost use Rattle.dice_core.specs.Commits.{Fault, fault_of, AreSettable, IsFirstFault};
ghost use Rattle.dice_engine.specs.Seats.{IsSeatOf, IsWriter};
ghost use Rattle.dice_engine.specs.Turns.{newest_in, log_of, Turn};
ghost use Rattle.dice_engine.specs.Conditions.{HasOpen, HasAsk, SawAsk};
ghost use Rattle.dice_engine.specs.Calls.{AddsNothing, Opens, Closes, Asks, Leaves, Commits};
ghost use Rattle.dice_engine.specs.Replies.{reply_of, IsReply};
ghost use Rattle.dice_engine.specs.Lines.{AreLines, AreEventsFrom};
ghost use Rattle.dice_engine.specs.Doings.{TellsOfCore};

use crate::engine::Engine;
use crate::promise::{Answer, Promise, Transaction};
use crate::seat::Seat;
use crate::updater::Updater;
use dice_core::CommitRefusal;
use dice_key::{KeyRef, Line, NoMemory, Universe, Version};
use journal::Event;
use std::alloc::Global;
use std::sync::Wait;

impl<U: Universe> Engine<U> {
    /// Applies changes together: those whose value is not the key's newest one are a commit; with
    /// none of these nothing changes. The version is the newest one after it.
    ///
    /// The changes are tested first, in order: the first pair whose key is not injected, or stands
    /// in an earlier pair, is named. At a refusal nothing is added.
    pub fn commit<'a, R: Wait>(
        &self,
        rt: &R,
        seat: &mut Seat<U>,
        updater: &'a Updater<U>,
    ) -> Result<Version, CommitRefusal<'a, U>>
        requires seat { IsSeatOf self.now seat.old × IsWriter seat.old }
        ensures settable { OnOk result (AreSettable U.meaning (keys_of updater.now)) }
        ensures fault { IfErr result
            (λ e. IfSome (fault_of e) (IsFirstFault U.meaning (keys_of updater.now))) }
        ensures first { (f : Fault U.Key) → IsFirstFault U.meaning (keys_of updater.now) f
            → MatchResult result (λ _. ⊥) (λ e. IfSome (fault_of e) (λ g. g ≡ f)) }

        // Changes that can be set are committed, or memory was refused.
        ensures complete { AreSettable U.meaning (keys_of updater.now)
            → IfErr result (λ e. fault_of e ≡ None) }
        ensures version { IfOk result (λ v. v ≡ newest_in seat.new.seen) }
        ensures ok { OnOk result (Turn U.Key.eq U.meaning seat.old seat.new
            (λ found. Commits U.Key.eq U.Value.eq U.meaning seat.old.number (log_of found)
            updater.now)) }
        ensures err { OnErr result
            (Turn U.Key.eq U.meaning seat.old seat.new (λ found. AddsNothing)) }
        ensures seat { IsSeatOf self.now seat.new }
        ensures same { (seat.new.number ≡ seat.old.number) × (seat.new.writers ≡ seat.old.writers) }
    {
        let number = seat.number();
        let mut turn = self.stile.enter(rt, &mut seat.place);
        let state = turn.state();
        let result = state.commit(rt, number, updater);
        state.line_up(rt);
        self.stile.leave(turn);
        result
    }

    /// Opens a transaction at the newest version. If memory is refused nothing is added.
    pub fn open<R: Wait>(&self, rt: &R, seat: &mut Seat<U>) -> Result<Transaction, NoMemory>
        requires seat { IsSeatOf self.now seat.old × IsWriter seat.old }
        ensures ok { IfOk result (λ t. Turn U.Key.eq U.meaning seat.old seat.new
            (λ found own work. Opens seat.old.number found own work × (t.version ≡ newest_in found)
            × (t.opened ≡ length found))) }
        ensures has { IfOk result (λ t. HasOpen seat.new t.opened t.version) }
        ensures err { OnErr result
            (Turn U.Key.eq U.meaning seat.old seat.new (λ found. AddsNothing)) }
        ensures seat { IsSeatOf self.now seat.new }
        ensures same { (seat.new.number ≡ seat.old.number) × (seat.new.writers ≡ seat.old.writers) }
    {
        let number = seat.number();
        let mut turn = self.stile.enter(rt, &mut seat.place);
        let state = turn.state();
        let opened = state.open(rt, number);
        state.line_up(rt);
        self.stile.leave(turn);
        opened
    }

    /// Closes a transaction: its asks go, and the tasks that nobody asks for any more are dropped.
    /// It takes no memory.
    pub fn close<R: Wait>(&self, rt: &R, seat: &mut Seat<U>, transaction: Transaction)
        requires seat { IsSeatOf self.now seat.old × IsWriter seat.old }
        requires open { HasOpen seat.old transaction.opened transaction.version }
        ensures turn { Turn U.Key.eq U.meaning seat.old seat.new
            (λ found. Closes seat.old.number transaction.opened transaction.version) }
        ensures seat { IsSeatOf self.now seat.new }
        ensures same { (seat.new.number ≡ seat.old.number) × (seat.new.writers ≡ seat.old.writers) }
    {
        let mut turn = self.stile.enter(rt, &mut seat.place);
        let state = turn.state();
        state.close(rt, transaction);
        state.line_up(rt);
        self.stile.leave(turn);
    }

    /// Asks for a key in a transaction. If memory is refused nothing is added.
    pub fn ask<R: Wait>(
        &self,
        rt: &R,
        seat: &mut Seat<U>,
        transaction: &Transaction,
        key: KeyRef<U>,
    ) -> Result<Promise<U>, NoMemory>
        requires seat { IsSeatOf self.now seat.old × IsWriter seat.old }
        requires open { HasOpen seat.old transaction.now.opened transaction.now.version }
        ensures ok { IfOk result (λ p. Turn U.Key.eq U.meaning seat.old seat.new
            (λ found own work. Asks seat.old.number transaction.now.opened transaction.now.version
            (arc_value key) own work × (p.ask ≡ length found))) }
        ensures named { IfOk result (λ p. (p.version ≡ transaction.now.version)
            × (p.opened ≡ transaction.now.opened) × (arc_value p.key ≡ arc_value key)) }
        ensures has { IfOk result
            (λ p. HasAsk seat.new p.ask p.opened p.version (arc_value p.key)) }
        ensures err { OnErr result
            (Turn U.Key.eq U.meaning seat.old seat.new (λ found. AddsNothing)) }
        ensures seat { IsSeatOf self.now seat.new }
        ensures same { (seat.new.number ≡ seat.old.number) × (seat.new.writers ≡ seat.old.writers) }
    {
        let number = seat.number();
        let mut turn = self.stile.enter(rt, &mut seat.place);
        let state = turn.state();
        let promise = state.ask(rt, number, transaction, key);
        state.line_up(rt);
        self.stile.leave(turn);
        promise
    }

    /// Leaves an ask, and drops the tasks that nobody asks for any more; if its transaction was
    /// closed, nothing. It takes no memory.
    pub fn leave<R: Wait>(&self, rt: &R, seat: &mut Seat<U>, promise: Promise<U>)
        requires seat { IsSeatOf self.now seat.old × IsWriter seat.old }
        requires ask { HasAsk seat.old promise.ask promise.opened promise.version
            (arc_value promise.key) }
        ensures turn { Turn U.Key.eq U.meaning seat.old seat.new
            (λ found. Leaves seat.old.number promise.ask promise.opened promise.version found) }
        ensures seat { IsSeatOf self.now seat.new }
        ensures same { (seat.new.number ≡ seat.old.number) × (seat.new.writers ≡ seat.old.writers) }
    {
        let mut turn = self.stile.enter(rt, &mut seat.place);
        let state = turn.state();
        state.leave(rt, promise);
        state.line_up(rt);
        self.stile.leave(turn);
    }

    /// What a promise has come to. It adds nothing. It takes memory for an answer alone. Of a task
    /// that was given up since no memory was left, it answers `NoMemory` for good.
    pub fn poll<R: Wait>(
        &self,
        rt: &R,
        seat: &mut Seat<U>,
        promise: &Promise<U>,
    ) -> Result<Answer<U>, NoMemory>
        requires seat { IsSeatOf self.now seat.old }
        requires ask { SawAsk seat.old promise.now.ask promise.now.opened promise.now.version
            (arc_value promise.now.key) }
        ensures turn { Turn U.Key.eq U.meaning seat.old seat.new (λ found. AddsNothing) }
        ensures reply { IsReply U.Key.eq U.meaning seat.new.seen promise.now.version
            (arc_value promise.now.key) promise.now.ask seat.new.left (reply_of result) }
        ensures exact { TellsOfCore U.Key.eq U.meaning promise.now (reply_of result) seat.old
            seat.new }
        ensures seat { IsSeatOf self.now seat.new }
        ensures same { (seat.new.number ≡ seat.old.number) × (seat.new.writers ≡ seat.old.writers) }
    {
        let mut turn = self.stile.enter(rt, &mut seat.place);
        let state = turn.state();
        let answer = state.poll(promise);
        state.line_up(rt);
        self.stile.leave(turn);
        answer
    }

    /// The lines of the journal, one for each event, in order. It adds nothing, and takes as long
    /// as the journal and its lines are.
    pub fn log<R: Wait>(
        &self,
        rt: &R,
        alloc: Global,
        seat: &mut Seat<U>,
    ) -> Result<Vec<Line>, NoMemory>
        requires seat { IsSeatOf self.now seat.old }
        ensures turn { Turn U.Key.eq U.meaning seat.old seat.new (λ found. AddsNothing) }
        ensures lines { IfOk result (λ ls. AreLines U.meaning seat.new.seen ls.items) }
        ensures seat { IsSeatOf self.now seat.new }
        ensures same { (seat.new.number ≡ seat.old.number) × (seat.new.writers ≡ seat.old.writers) }
    {
        let mut turn = self.stile.enter(rt, &mut seat.place);
        let state = turn.state();
        let lines = state.lines(alloc, &*self.universe);
        state.line_up(rt);
        self.stile.leave(turn);
        lines
    }

    /// How many events the journal has, which is the index of the next one. It adds nothing, and
    /// takes no memory.
    pub fn event_count<R: Wait>(&self, rt: &R, seat: &mut Seat<U>) -> usize
        requires seat { IsSeatOf self.now seat.old }
        ensures turn { Turn U.Key.eq U.meaning seat.old seat.new (λ found. AddsNothing) }
        ensures count { result ≡ length seat.new.seen }
        ensures seat { IsSeatOf self.now seat.new }
        ensures same { (seat.new.number ≡ seat.old.number) × (seat.new.writers ≡ seat.old.writers) }
    {
        let mut turn = self.stile.enter(rt, &mut seat.place);
        let state = turn.state();
        let count = state.event_count();
        state.line_up(rt);
        self.stile.leave(turn);
        count
    }

    /// The events of the journal from this index on, in order; none if there are no more. It adds
    /// nothing, and takes as long as these events are. Their keys and values are shared.
    pub fn events<R: Wait>(
        &self,
        rt: &R,
        alloc: Global,
        seat: &mut Seat<U>,
        start: usize,
    ) -> Result<Vec<Event<U::Key, U::Value>>, NoMemory>
        requires seat { IsSeatOf self.now seat.old }
        ensures turn { Turn U.Key.eq U.meaning seat.old seat.new (λ found. AddsNothing) }
        ensures events { IfOk result (λ es. AreEventsFrom start seat.new.seen es.items) }
        ensures seat { IsSeatOf self.now seat.new }
        ensures same { (seat.new.number ≡ seat.old.number) × (seat.new.writers ≡ seat.old.writers) }
    {
        let mut turn = self.stile.enter(rt, &mut seat.place);
        let state = turn.state();
        let events = state.events(alloc, start);
        state.line_up(rt);
        self.stile.leave(turn);
        events
    }
}
