//! The state that lies in the slot of the turnstile, and the core's calls on it: one of them in
//! each turn.
ghost use Rattle.std.specs.Option.{ForSome, ForNone};
ghost use Rattle.std.specs.Prelude.{◌≡◌, ◌≢◌, IsSome, is_some, ℕ, List, [], ◌∷◌, ◌++◌, length, reverse, Some, IfOk, IfErr, IfSome, IfNone, OnOk, OnErr, MatchResult};
ghost use Rattle.std.specs.Arc.{arc_value};
ghost use Rattle.std.specs.Map.{keys_of};
ghost use Rattle.journal.specs.Events.{Opened, Asking, open_at, live_at};
ghost use Rattle.dice_jobs.specs.Alike.{AnsweredTruly, IsAnsweredIn};
ghost use Rattle.dice_core.specs.Commits.{Fault, fault_of, AreSettable, IsFirstFault};
ghost use Rattle.journal.specs.declared.event.Told.{Told};
ghost use Rattle.journal.specs.declared.event.Told.TheVariants.{Ask};
ghost use Rattle.journal.specs.Law.{IsLawfulJournal};
ghost use Rattle.turnstile.specs.Events.{StartsWith};
ghost use Rattle.dice_core.specs.Cores.{Absent, came_of, events_of, poll_of, IsJobOut, IsNameOut};
ghost use Rattle.dice_core.specs.Joinings.{IsToldOfMake};
ghost use Rattle.dice_engine.specs.Turns.{newest_in, log_of, left_of, Adds, WorksOn};
ghost use Rattle.dice_engine.specs.Calls.{AddsNothing, Opens, Closes, Asks, Leaves, Commits};
ghost use Rattle.dice_engine.specs.Replies.{reply_of, Tells, IsLiveIn, IsReply};
ghost use Rattle.dice_engine.specs.Lines.{AreLines, AreEventsFrom};
ghost use Rattle.job_line.specs.Ends.{first_pass};
ghost use Rattle.dice_engine.specs.Jobs.{GoesOut, LinesUp, IsKnown, GivesUpJob, TakesUpStep, ComesHome};
ghost use Rattle.dice_engine.specs.Doings.{RestsByJournal};
ghost use Rattle.dice_engine.specs.Rows.{Keeps, Follows, IsBare, ShelfHas};
ghost use Rattle.dice_engine.specs.Rounds.{IsAskOf};

use crate::bench::Bench;
use crate::events::events_since;
use crate::ledge::{Ledge, Published, shelve};
use crate::lines::lines_of;
use crate::promise::{Answer, Promise, Transaction};
use crate::updater::Updater;
use dice_core::{CommitRefusal, Core, Job, JobName, Polled, Step};
use dice_jobs::true_jobs_are_one;
use dice_key::{KeyRef, Line, NoMemory, Universe, Version};
use injected::cells_are_the_inputs;
use job_line::{JobLine, Pass};
use journal::{Event, Told};
use shelf::Told as News;
use std::alloc::Global;
use std::sync::{Arc, Wait};
use turnstile::Tale;

/// The state that the seats of an engine have in turns: its core with its line of jobs, its shelf,
/// if it has readers, and what it tells of itself between two turns: how many tasks are ready and
/// how many jobs are out, as `line_up` found them last, and the mark, which is 0 exactly if all its
/// rows are on a shelf, and readers can see them.
#[derive(Drop)]
pub struct State<U: Universe> {
    bench: Box<Bench<U>>,
    shelf: Option<Box<Ledge<U>>>,
    ready: u64,
    out: u64,
    mark: u64,
    newest: u64,
    ghost numbered: { newest ≡ newest_in (events_of bench.value.core) },
    ghost shelved: { ForSome shelf (λ b. Keeps (events_of bench.value.core) mark b.value) },
    ghost bare: { ForNone shelf (mark ≡ 1) },
}

impl<U: Universe> Tale for State<U> {
    ghost use Rattle.journal.specs.Tell.{event_by};
    ghost use Rattle.dice_core.specs.Cores.{events_of};
    ghost use Rattle.dice_engine.specs.Turns.{newest_in};
    ghost use Rattle.dice_engine.specs.Rises.{newest_rises};

    type Event = Told<U::Key, U::Value>;

    ghost list = { λ s. events_of s.bench.value.core };

    ghost by = { event_by };

    ghost counts = { λ s. (s.ready, s.out, s.mark) };

    ghost mark = { λ s. s.bench.value.line.web };

    ghost version = { newest_in };

    fn tally(&self) -> (u64, u64, u64) {
        (self.ready, self.out, self.mark)
    }

    fn list_version(&self) -> u64 {
        self.newest
    }

    ghost rises = { newest_rises };
}

/// The shelf takes up what the core's journal has gained. The answer is the mark from now on, and
/// the newest version.
#[inline]
fn settled<U: Universe, R: Wait>(
    rt: &R,
    shelf: &mut Option<Box<Ledge<U>>>,
    mark: u64,
    core: &Core<U>,
) -> (u64, u64)
    requires { ForSome shelf.old (λ b. Follows (events_of core.now) mark b.value) }
    ensures newest { result.1 ≡ newest_in (events_of core.now) }
    ensures lawful { IsLawfulJournal U.Key.eq U.meaning (events_of core.now) }
    ensures rests { RestsByJournal U.Key.eq U.meaning core.now }
    ensures shelved { ForSome shelf.new (λ b. Keeps (events_of core.now) result.0 b.value) }
    ensures bare { ForNone shelf.old (result.0 ≡ mark) × (is_some shelf.new ≡ is_some shelf.old) }
{
    core.in_order();
    (shelve(rt, shelf, mark, core), core.newest())
}

impl<U: Universe> State<U> {
    /// A state with this core, its line of jobs, and the first pass to it. The core lies on the
    /// heap, so that a turn moves no more than its address.
    pub(crate) fn new(
        alloc: Global,
        core: Core<U>,
    ) -> Result<(State<U>, Arc<JobLine<Job<U>>>, Pass<Job<U>>), NoMemory>
        ensures core { IfOk result (λ t. t.0.bench.value.core ≡ core) }
        ensures line { IfOk result (λ t. t.0.bench.value.line ≡ arc_value t.1) }
        ensures pass { IfOk result (λ t. t.2 ≡ first_pass (arc_value t.1)) }
    {
        let (ready, out, newest) = (core.ready(), core.out(), core.newest());
        let (bench, line, pass) = Bench::new(alloc, core)?;
        let state = State {
            bench: Box::new(alloc, bench)?,
            shelf: None,
            ready,
            out,
            mark: 1,
            newest,
        };
        Ok((state, line, pass))
    }

    /// The state with a shelf on which nothing is yet.
    pub(crate) fn with_shelf(self, shelf: Box<Ledge<U>>) -> State<U>
        requires bare { IsBare shelf.value }
        requires new { events_of self.bench.value.core ≡ [] }
        ensures core { result.bench.value.core ≡ self.bench.value.core }
        ensures line { result.bench.value.line ≡ self.bench.value.line }
    {
        let State {
            bench,
            shelf: _none,
            ready,
            out,
            mark: _,
            newest,
        } = self;
        State {
            bench,
            shelf: Some(shelf),
            ready,
            out,
            mark: 0,
            newest,
        }
    }

    /// Ends the shelf, if there is one, and hands out the core with its line, and what readers
    /// could see.
    pub(crate) fn end<R: Wait>(self, rt: &R) -> (Box<Bench<U>>, Option<Published<U>>) {
        let State {
            bench,
            shelf,
            ready: _,
            out: _,
            mark: _,
            newest: _,
        } = self;
        let Some(shelf) = shelf else {
            return (bench, None);
        };
        (bench, Some(Box::into_inner(shelf).end(rt)))
    }

    /// What readers can see now, for a reader that learns it; `None` if there is no shelf.
    pub(crate) fn tell(&mut self) -> Option<News<U>>
        ensures core { self.new.bench.value.core ≡ self.old.bench.value.core }
        ensures told { IfSome result (λ t. IfSome t (λ xs.
            (self.new.mark ≡ 0 → ShelfHas (events_of self.new.bench.value.core) xs))) }
        ensures some { self.new.mark ≡ 0 → IsSome result }
        ensures lawful { IsLawfulJournal U.Key.eq U.meaning (events_of self.new.bench.value.core) }
        ensures line { self.new.bench.value.line ≡ self.old.bench.value.line }
    {
        let bench = &*self.bench;
        bench.core.in_order();
        let Some(shelf) = &mut self.shelf else {
            return None;
        };
        Some(shelf.told())
    }

    /// Commits changes for a seat.
    pub(crate) fn commit<'a, R: Wait>(
        &mut self,
        rt: &R,
        by: u64,
        updater: &'a Updater<U>,
    ) -> Result<Version, CommitRefusal<'a, U>>
        ensures settable { OnOk result (AreSettable U.meaning (keys_of updater.now)) }
        ensures fault { IfErr result
            (λ e. IfSome (fault_of e) (IsFirstFault U.meaning (keys_of updater.now))) }
        ensures first { (f : Fault U.Key) → IsFirstFault U.meaning (keys_of updater.now) f
            → MatchResult result (λ _. ⊥) (λ e. IfSome (fault_of e) (λ g. g ≡ f)) }
        ensures version { IfOk result (λ v. v ≡ newest_in (events_of self.new.bench.value.core)) }
        ensures ok { OnOk result (Adds U.Key.eq U.meaning by (events_of self.old.bench.value.core)
            (events_of self.new.bench.value.core) (Commits U.Key.eq U.Value.eq U.meaning by
            (log_of (events_of self.old.bench.value.core)) updater.now)) }
        ensures err { OnErr result (Adds U.Key.eq U.meaning by (events_of self.old.bench.value.core)
            (events_of self.new.bench.value.core) AddsNothing) }
        ensures line { self.new.bench.value.line ≡ self.old.bench.value.line }
    {
        true_jobs_are_one::<U>();
        cells_are_the_inputs::<U>();
        let bench = &mut *self.bench;
        let core = &mut bench.core;
        core.in_order();
        let result = core.commit(by, updater.pairs());
        let (mark, newest) = settled(rt, &mut self.shelf, self.mark, core);
        self.mark = mark;
        self.newest = newest;
        result
    }

    /// Opens a transaction for a seat.
    pub(crate) fn open<R: Wait>(&mut self, rt: &R, by: u64) -> Result<Transaction, NoMemory>
        ensures named { IfOk result (λ t.
            (t.version ≡ newest_in (events_of self.old.bench.value.core))
            × (t.opened ≡ length (events_of self.old.bench.value.core))) }
        ensures ok { OnOk result (Adds U.Key.eq U.meaning by (events_of self.old.bench.value.core)
            (events_of self.new.bench.value.core)
            (Opens by (events_of self.old.bench.value.core))) }
        ensures err { OnErr result (Adds U.Key.eq U.meaning by (events_of self.old.bench.value.core)
            (events_of self.new.bench.value.core) AddsNothing) }
        ensures line { self.new.bench.value.line ≡ self.old.bench.value.line }
    {
        true_jobs_are_one::<U>();
        let version = self.newest;
        let bench = &mut *self.bench;
        let core = &mut bench.core;
        let opened = core.open(by);
        let (mark, newest) = settled(rt, &mut self.shelf, self.mark, core);
        self.mark = mark;
        self.newest = newest;
        Ok(Transaction {
            version,
            opened: opened?,
        })
    }

    /// Closes a transaction.
    pub(crate) fn close<R: Wait>(&mut self, rt: &R, transaction: Transaction)
        requires { IsLawfulJournal U.Key.eq U.meaning (events_of self.old.bench.value.core)
            → (o : Opened)
            × (open_at (reverse (events_of self.old.bench.value.core)) transaction.opened
            ≡ Some o) }
        ensures closes { (o : Opened)
            × (open_at (reverse (events_of self.old.bench.value.core)) transaction.opened
            ≡ Some o)
            × Adds U.Key.eq U.meaning o.by (events_of self.old.bench.value.core)
            (events_of self.new.bench.value.core) (Closes o.by transaction.opened o.version) }
        ensures line { self.new.bench.value.line ≡ self.old.bench.value.line }
    {
        true_jobs_are_one::<U>();
        let bench = &mut *self.bench;
        let core = &mut bench.core;
        core.in_order();
        core.close(transaction.opened);
        let (mark, newest) = settled(rt, &mut self.shelf, self.mark, core);
        self.mark = mark;
        self.newest = newest;
    }

    /// Asks for a key in a transaction, for a seat.
    pub(crate) fn ask<R: Wait>(
        &mut self,
        rt: &R,
        by: u64,
        transaction: &Transaction,
        key: KeyRef<U>,
    ) -> Result<Promise<U>, NoMemory>
        requires { IsLawfulJournal U.Key.eq U.meaning (events_of self.old.bench.value.core)
            → (o : Opened)
            × (open_at (reverse (events_of self.old.bench.value.core)) transaction.now.opened
            ≡ Some o)
            × (o.version ≡ transaction.now.version) }
        ensures named { IfOk result (λ p. (p.version ≡ transaction.now.version)
            × (p.opened ≡ transaction.now.opened)
            × (p.ask ≡ length (events_of self.old.bench.value.core))
            × (arc_value p.key ≡ arc_value key)) }
        ensures ok { OnOk result (Adds U.Key.eq U.meaning by (events_of self.old.bench.value.core)
            (events_of self.new.bench.value.core)
            (Asks by transaction.now.opened transaction.now.version (arc_value key))) }
        ensures err { OnErr result (Adds U.Key.eq U.meaning by (events_of self.old.bench.value.core)
            (events_of self.new.bench.value.core) AddsNothing) }
        ensures line { self.new.bench.value.line ≡ self.old.bench.value.line }
    {
        true_jobs_are_one::<U>();
        let bench = &mut *self.bench;
        let core = &mut bench.core;
        core.in_order();
        let ask = ask_again(core, by, transaction.opened, &key);
        let (mark, newest) = settled(rt, &mut self.shelf, self.mark, core);
        self.mark = mark;
        self.newest = newest;
        Ok(Promise {
            version: transaction.version,
            opened: transaction.opened,
            ask: ask?,
            key,
        })
    }

    /// Leaves an ask, if its transaction is still open.
    pub(crate) fn leave<R: Wait>(&mut self, rt: &R, promise: Promise<U>)
        requires open { IsLawfulJournal U.Key.eq U.meaning (events_of self.old.bench.value.core)
            → (o : Opened)
            → open_at (reverse (events_of self.old.bench.value.core)) promise.opened ≡ Some o
            → (a : Asking U.Key)
            × (live_at (reverse (events_of self.old.bench.value.core)) promise.ask ≡ Some a)
            × (a.opened ≡ promise.opened) × (o.version ≡ promise.version) }
        requires closed { IsLawfulJournal U.Key.eq U.meaning (events_of self.old.bench.value.core)
            → (a : Asking U.Key)
            → live_at (reverse (events_of self.old.bench.value.core)) promise.ask ≡ Some a
            → (a.opened ≡ promise.opened)
            × ((o : Opened)
            × (open_at (reverse (events_of self.old.bench.value.core)) promise.opened ≡ Some o)) }
        ensures leaves { (n : ℕ)
            → (IsLawfulJournal U.Key.eq U.meaning (events_of self.old.bench.value.core)
            → (a : Asking U.Key)
            → live_at (reverse (events_of self.old.bench.value.core)) promise.ask ≡ Some a
            → a.by ≡ n)
            → Adds U.Key.eq U.meaning n (events_of self.old.bench.value.core)
            (events_of self.new.bench.value.core)
            (Leaves n promise.ask promise.opened promise.version
            (events_of self.old.bench.value.core)) }
        ensures line { self.new.bench.value.line ≡ self.old.bench.value.line }
    {
        true_jobs_are_one::<U>();
        let bench = &mut *self.bench;
        let core = &mut bench.core;
        core.in_order();
        if core.stands(promise.ask) {
            core.leave(promise.ask);
        }
        let (mark, newest) = settled(rt, &mut self.shelf, self.mark, core);
        self.mark = mark;
        self.newest = newest;
    }

    /// What a promise has come to.
    pub(crate) fn poll(&self, promise: &Promise<U>) -> Result<Answer<U>, NoMemory>
        requires { IsLawfulJournal U.Key.eq U.meaning (events_of self.now.bench.value.core)
            → IsAskOf promise.now (events_of self.now.bench.value.core) }
        ensures reply { IsReply U.Key.eq U.meaning (events_of self.now.bench.value.core)
            promise.now.version (arc_value promise.now.key) promise.now.ask
            (left_of self.now.mark self.now.bench.value.core) (reply_of result) }

        // If the ask is live, what is answered is what the core has come to.
        ensures exact { IsLiveIn (events_of self.now.bench.value.core) promise.now.ask
            → Tells (poll_of U.Key.eq U.meaning self.now.bench.value.core promise.now.version
            (arc_value promise.now.key)) (reply_of result) }
        ensures lawful { IsLawfulJournal U.Key.eq U.meaning (events_of self.now.bench.value.core) }
        ensures rests { RestsByJournal U.Key.eq U.meaning self.now.bench.value.core }
    {
        let bench = &*self.bench;
        let core = &bench.core;
        core.in_order();
        if !core.stands(promise.ask) {
            return Ok(Answer::Gone);
        }
        answer_of(core.poll(promise.version, &promise.key))
    }

    /// The lines of the journal, one for each event, in order.
    pub(crate) fn lines(&self, alloc: Global, universe: &U) -> Result<Vec<Line>, NoMemory>
        ensures lines { IfOk result
            (λ ls. AreLines U.meaning (events_of self.now.bench.value.core) ls.items) }
        ensures lawful { IsLawfulJournal U.Key.eq U.meaning (events_of self.now.bench.value.core) }
    {
        let bench = &*self.bench;
        let core = &bench.core;
        core.in_order();
        lines_of(alloc, universe, core.journal())
    }

    /// How many events there are.
    pub(crate) fn event_count(&self) -> usize
        ensures count { result ≡ length (events_of self.now.bench.value.core) }
        ensures lawful { IsLawfulJournal U.Key.eq U.meaning (events_of self.now.bench.value.core) }
    {
        let bench = &*self.bench;
        let core = &bench.core;
        core.in_order();
        core.journal().len()
    }

    /// The events from this index on, in order.
    pub(crate) fn events(
        &self,
        alloc: Global,
        start: usize,
    ) -> Result<Vec<Event<U::Key, U::Value>>, NoMemory>
        ensures events { IfOk result
            (λ es. AreEventsFrom start (events_of self.now.bench.value.core) es.items) }
        ensures lawful { IsLawfulJournal U.Key.eq U.meaning (events_of self.now.bench.value.core) }
    {
        let bench = &*self.bench;
        let core = &bench.core;
        core.in_order();
        events_since(alloc, core.journal(), start)
    }

    /// Takes the job of a task that is ready; it is out then, and nothing else changes. `None`
    /// exactly if no task is ready.
    pub(crate) fn take_job(&mut self) -> Option<Job<U>>
        ensures adds { Adds U.Key.eq U.meaning 0 (events_of self.old.bench.value.core)
            (events_of self.new.bench.value.core) AddsNothing }
        ensures goes { GoesOut U.Key.eq result self.old.bench.value.core self.new.bench.value.core }
        ensures none { IfNone result (self.new.bench.value.core.desk.ready ≡ []) }
        ensures answered { IfSome result
            (IsAnsweredIn U.Key.eq U.meaning (log_of (events_of self.new.bench.value.core))) }
        ensures rests { RestsByJournal U.Key.eq U.meaning self.new.bench.value.core }
        ensures line { self.new.bench.value.line ≡ self.old.bench.value.line }
    {
        let bench = &mut *self.bench;
        let core = &mut bench.core;
        let job = core.take_job();
        core.in_order();
        job
    }

    /// Puts the ready jobs on the line, in order, as the last of a turn. It stops if the line had
    /// as many puts as it may have, or if there is no memory; then the jobs that are left stay
    /// ready.
    pub(crate) fn line_up<R: Wait>(&mut self, rt: &R)
        ensures lines_up { LinesUp U.Key.eq self.old.bench.value.puts self.new.bench.value.puts
            self.old.bench.value.core self.new.bench.value.core }
        ensures none { self.old.bench.value.core.desk.ready ≡ []
            → self.new.bench.value.core ≡ self.old.bench.value.core }
        ensures events { events_of self.new.bench.value.core ≡ events_of self.old.bench.value.core }
        ensures rests { RestsByJournal U.Key.eq U.meaning self.new.bench.value.core }
        ensures mark { self.new.mark ≡ self.old.mark }
        ensures counts { (self.new.ready, self.new.out, self.new.mark)
            ≡ left_of self.new.mark self.new.bench.value.core }
        ensures line { self.new.bench.value.line ≡ self.old.bench.value.line }
    {
        let bench = &mut *self.bench;
        bench.line_up(rt);
        bench.core.in_order();
        self.ready = bench.core.ready();
        self.out = bench.core.out();
    }

    /// A pass to the line, for a place that has none. Nothing changes.
    pub(crate) fn pass(&mut self) -> Pass<Job<U>>
        ensures line { result.line ≡ self.old.bench.value.line }
        ensures core { self.new.bench.value.core ≡ self.old.bench.value.core }
        ensures same { self.new.bench.value.line ≡ self.old.bench.value.line }
        ensures lawful { IsLawfulJournal U.Key.eq U.meaning (events_of self.new.bench.value.core) }
    {
        let bench = &mut *self.bench;
        bench.core.in_order();
        bench.line.pass(&mut bench.putter)
    }

    /// Takes up what came of a job that was taken here, or from the line by this pass: a step, or
    /// the name of the job, if there was no memory for it. The job is out no more then.
    pub(crate) fn take_up<R: Wait>(
        &mut self,
        rt: &R,
        pass: &mut Pass<Job<U>>,
        came: Result<Step<U>, JobName<U>>,
    )
        requires pass { pass.old.line ≡ self.old.bench.value.line }
        requires known { IfOk came (λ s. IsKnown U.Key.eq U.meaning
            (log_of (events_of self.old.bench.value.core)) pass.old.seen s.job) }
        ensures adds { Adds U.Key.eq U.meaning 0 (events_of self.old.bench.value.core)
            (events_of self.new.bench.value.core) (λ own work. own ≡ []) }
        ensures home { ComesHome U.Key.eq U.meaning U.Value.eq came self.old.bench.value.core
            self.new.bench.value.core }
        ensures rests { RestsByJournal U.Key.eq U.meaning self.new.bench.value.core }
        ensures line { self.new.bench.value.line ≡ self.old.bench.value.line }
        ensures pass { pass.new ≡ pass.old }
    {
        true_jobs_are_one::<U>();
        let bench = &mut *self.bench;
        bench.line.meet(rt, &mut bench.putter, pass);
        let core = &mut bench.core;
        take_in(core, came);
        let (mark, newest) = settled(rt, &mut self.shelf, self.mark, core);
        self.mark = mark;
        self.newest = newest;
    }
}

/// Asks for a key; the caller keeps its reference to it.
fn ask_again<U: Universe>(
    core: &mut Core<U>,
    by: u64,
    opened: u64,
    key: &KeyRef<U>,
) -> Result<u64, NoMemory>
    requires { (o : Opened) × (open_at (reverse (events_of core.old)) opened ≡ Some o) }
    ensures index { IfOk result (λ i. i ≡ length (events_of core.old)) }
    ensures ok { OnOk result ((o : Opened) × (made : List (Told U.Key U.Value))
        × (open_at (reverse (events_of core.old)) opened ≡ Some o)
        × IsToldOfMake o.version (arc_value key.now) made
        × (events_of core.new ≡ events_of core.old ++ (Ask by opened (arc_value key.now) ∷ made))) }
    ensures err { OnErr result (events_of core.new ≡ events_of core.old) }
{
    core.ask(by, opened, Arc::try_clone(key)?)
}

/// What is answered of what a key has come to.
fn answer_of<U: Universe>(polled: Polled<'_, U>) -> Result<Answer<U>, NoMemory>
    requires { came_of polled ≢ Absent }
    ensures { Tells (came_of polled.entry) (reply_of result) }
{
    match polled {
        Polled::Value(value) => Ok(Answer::Value(Arc::try_clone(value)?)),
        Polled::Cycle(path) => Ok(Answer::Cycle(Arc::try_clone(path)?)),
        Polled::Lost => Err(NoMemory),
        Polled::Pending => Ok(Answer::Pending),
        Polled::Absent => unreachable!(),
    }
}

/// Takes up what came of a job.
fn take_in<U: Universe>(core: &mut Core<U>, came: Result<Step<U>, JobName<U>>)
    requires { IfOk came
        (λ s. AnsweredTruly U.Key.eq U.meaning (log_of (events_of core.old)) s.job) }
    ensures works { WorksOn (events_of core.old) (events_of core.new) }
    ensures home { ComesHome U.Key.eq U.meaning U.Value.eq came core.old core.new }
{
    match came {
        Ok(step) => give(core, step),
        Err(name) => fail(core, &name),
    }
}

/// Gives a step: it is taken; or its job is not out, and nothing changes; or there is no memory for
/// it, and its job is given up.
fn give<U: Universe>(core: &mut Core<U>, step: Step<U>)
    requires { AnsweredTruly U.Key.eq U.meaning (log_of (events_of core.old)) step.job }
    ensures works { WorksOn (events_of core.old) (events_of core.new) }
    ensures takes { TakesUpStep U.Key.eq U.meaning U.Value.eq step core.old core.new }
    ensures home { IsJobOut U.Key.eq core.new step.job → ⊥ }
{
    match core.give_own(step) {
        Ok(gave) => drop(gave),
        Err((NoMemory, step)) => fail(core, step.assignment().name()),
    }
}

/// Gives up the job of this name, if it is out; otherwise nothing changes.
fn fail<U: Universe>(core: &mut Core<U>, name: &JobName<U>)
    ensures works { WorksOn (events_of core.old) (events_of core.new) }
    ensures gives_up { GivesUpJob U.Key.eq U.meaning name.now core.old core.new }
    ensures home { IsNameOut U.Key.eq core.new name.now → ⊥ }
{
    core.fail(name);
}
