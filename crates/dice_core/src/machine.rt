//! The core.
ghost use Rattle.std.specs.Prelude.{◌≡◌, ◌≢◌, ◌<◌, ◌+◌, ◌++◌, ◌∷◌, ◌↔◌, IsTrue, ℕ, nat_eq, List, [], true, false, length, map, reverse, Some, None, is_some, IfOk, IfErr, IfSome, IfNone, OnOk, OnErr, MatchResult};
ghost use Rattle.std.specs.Map.{keys_of};
ghost use Rattle.dice_model.specs.Log.{pairs_of};
ghost use Rattle.journal.specs.declared.event.Told.TheVariants.{Open, Close, Leave, Drop, Lost};
ghost use Rattle.std.specs.Arc.{arc_value};
ghost use Rattle.dice_key.specs.declared.universe.Kind.TheVariants.{Injected};
ghost use Rattle.dice_model.specs.Eval.{HasValue};
ghost use Rattle.dice_model.specs.Asks.{AsksFor};
ghost use Rattle.dice_jobs.specs.Alike.{AnsweredTruly, IsAnsweredIn};
ghost use Rattle.task_share.specs.Asked.{Tasked};
ghost use Rattle.task_share.specs.Seen.{task_at, asks, asked_of};
ghost use Rattle.journal.specs.Events.{Opened, Asking, commits_of, decided, open_at, open_count, opened_at, live_at, lost_in_epoch, event_of};
ghost use Rattle.injected.specs.Seen.{cell_at};
ghost use Rattle.journal.specs.Law.{IsLawfulJournal, CycleStands};
ghost use Rattle.version_epoch.specs.Standings.{open_count_of, epoch_of};
ghost use Rattle.versioned_graph.specs.Sound.{AreTrue};
ghost use Rattle.core_laws.specs.Desk.{AreAll};
ghost use Rattle.core_laws.specs.Stands.{IsAtRest};
ghost use Rattle.dice_core.specs.Commits.{CommitsEntries, Fault, fault_of, AreSettable, IsFirstFault, differing_of};
ghost use Rattle.dice_steps.specs.Cells.{CellsStand};
ghost use Rattle.dice_tasks.specs.Endings.{GivesUpAll};
ghost use Rattle.dice_tasks.specs.Entries.{EntriesStand};
ghost use Rattle.dice_tasks.specs.Hands.{KeepsWork, tasks_of};
ghost use Rattle.dice_core.specs.Givings.{stale_of, GivesStep, DoesStep, HandsBack};
ghost use Rattle.dice_core.specs.Joinings.{AsksForKey};
ghost use Rattle.dice_core.specs.Sessions.{transaction_at, ask_at, epochs_begun};
ghost use Rattle.dice_core.specs.Cores.{CoreSeen, Came, ToValue, ToCycle, ToNothing, Pending, Absent, came_of, decision_of, events_of, past_of, table_at, held_to, injected_to, held_in, poll_of, Turned, IsAsBefore, KeepsTasksOf, DropsThese, ready_at, out_at, IsJobOut, IsNameOut, TakesOut, GivesUpOnly};
ghost use Rattle.dice_core.specs.Staying.{AnswersStay, LosesWaitersOnly};
ghost use Rattle.lists.specs.Lists.{Has};

use crate::commit::{CommitRefusal, commit};
use crate::giving::{Gave, give_in, is_like_out, take_up};
use crate::jobs_out::{bring_back, fail_named, take_next};
use crate::opening::{ask_in, close_in, leave_ask, open_at_newest};
use crate::polled::Polled;
use crate::sessions::Sessions;
use crate::spare::Spare;
use dice_jobs::{Job, JobName, Step, true_jobs_are_one};
use dice_key::{KeyRef, Kind, NoMemory, Universe, ValueRef, Version, laws_of};
use dice_steps::Shared;
use dice_tasks::{Desk, Tasks};
use injected::{Cells, cells_are_the_inputs};
use journal::Journal;
use std::alloc::Global;
use std::collections::HashMap;
use std::marker::Model;
use std::sync::Arc;
use task_state::Outcome;
use versioned_graph::Graph;

/// The core of an engine: commits, transactions, asks, and the tasks that bring about what is asked
/// for, with a journal of all that happened.
///
/// It is one state without threads. Its calls take what there is to take and give what has come;
/// the work on keys is done outside, by [`dice_jobs::Job::advance`].
pub struct Core<U: Universe> {
    shared: Shared<U>,
    versions: HashMap<u64, Tasks<U>>,
    sessions: Sessions<U>,
    spare: Spare<U>,
}

// (One function for all places that drop one: a derived drop is written out at each.)
impl<U: Universe> Drop for Core<U> {
    fn drop(self) {
        let Core {
            shared: _shared,
            versions: _versions,
            sessions: _sessions,
            spare: _spare,
        } = self;
    }
}

impl<U: Universe> Model for Core<U> {
    ghost use Rattle.dice_core.specs.Cores.{CoreSeen};

    ghost Value = { CoreSeen U.Key U.Value };

    ghost use Rattle.dice_core.specs.Cores.{CoreStands};

    ghost view = { λ c. record {
      desk = c.shared.desk;
      tables = c.versions.entries;
      entries = c.shared.graph;
      cells = c.shared.cells;
      sessions = c.sessions;
    } };

    ghost invariant = { λ c. CoreStands U.Key.eq U.meaning (record {
      desk = c.shared.desk;
      tables = c.versions.entries;
      entries = c.shared.graph;
      cells = c.shared.cells;
      sessions = c.sessions;
    }) };
}

impl<U: Universe> Core<U> {
    /// A core without commits: version 0 is the newest. It takes no memory.
    pub fn new(alloc: Global, universe: Arc<U>) -> Result<Core<U>, NoMemory>
        ensures events { IfOk result (λ c. events_of c ≡ []) }
        ensures ready { IfOk result (λ c. (c.desk.ready ≡ []) × (c.desk.out ≡ [])) }
    {
        laws_of::<U>();
        let graph = Graph::new(alloc, Arc::try_clone(&universe)?);
        let cells = Cells::new(alloc, Arc::try_clone(&universe)?);
        let desk = Desk::new(alloc, universe.seed());
        let versions = HashMap::new(alloc);
        let sessions = Sessions::new(alloc);
        let shared = Shared {
            alloc,
            universe,
            cells,
            graph,
            desk,
        };
        Ok(Core {
            shared,
            versions,
            sessions,
            spare: Spare::new(alloc),
        })
    }

    /// What holds of every core. It does no work, and hands these facts to its caller.
    pub fn in_order(&self)
        // The journal is lawful, and what is open, the cells and the newest version are what it
        // says.
        ensures lawful { IsLawfulJournal U.Key.eq U.meaning (events_of self.now) }
        ensures transactions { (i : ℕ)
            → transaction_at self.now.sessions i ≡ open_at (past_of self.now) i }
        ensures asks { (i : ℕ) → ask_at self.now.sessions i ≡ live_at (past_of self.now) i }
        ensures counts { (v : ℕ)
            → open_count_of self.now.sessions.epochs v ≡ open_count (past_of self.now) v }
        ensures cells { CellsStand U.Key.eq (past_of self.now) self.now.cells }

        // So is how many epochs of each version have begun.
        ensures epochs { (v : ℕ)
            → epoch_of self.now.sessions.epochs v ≡ epochs_begun (past_of self.now) v }

        // The tasks that are ready are listed, each once, and so are those whose jobs are out.
        ensures ready { AreAll (ready_at U.Key.eq self.now) self.now.desk.ready }
        ensures outs { AreAll (out_at U.Key.eq self.now) self.now.desk.out }

        // Each entry holds true values at the versions that it is known for, up to the newest.
        ensures entries { AreTrue U.Key.eq U.meaning (commits_of (past_of self.now))
            self.now.entries }

        // Each comes from decisions: its trace is the key's at a version at which the key came to a
        // value, and at its own version the key did too. Each key that came to a value has an
        // entry.
        ensures backed { EntriesStand U.Key.eq U.meaning (past_of self.now) self.now.entries }

        // At every version the promises are the live asks, and each task stands where it does by
        // what the journal tells; a task at work is asked for, what it waits for is at work, and
        // without an open transaction there is none.
        ensures rest { (v : ℕ)
            → IsAtRest U.Key.eq U.meaning (past_of self.now) v
            (asked_of U.Key.eq (table_at self.now.tables v))
            (tasks_of U.Key.eq (table_at self.now.tables v)) }

        // A task waits for what its key asks.
        ensures waits { (v : ℕ) (d k : U.Key)
            → asks U.Key.eq (table_at self.now.tables v) d (Tasked k) ≡ true
            → AsksFor U.Key.eq U.meaning (commits_of (past_of self.now)) v k d }
    {
        let _ = &self.shared.universe;
    }

    /// What a key has come to at a version. It takes no memory, and costs a look-up or two.
    pub fn poll(&self, version: Version, key: &KeyRef<U>) -> Polled<'_, U>
        ensures exact { came_of result
            ≡ poll_of U.Key.eq U.meaning self.now version (arc_value key.now) }

        // A value is the key's value over the commits, and a cycle a cycle there that the key
        // reaches.
        ensures value { (x : U.Value) → came_of result ≡ ToValue x
            → HasValue U.Key.eq U.meaning (commits_of (past_of self.now)) version
            (arc_value key.now) x }
        ensures cycle { (p : List U.Key) → came_of result ≡ ToCycle p
            → CycleStands U.Key.eq U.meaning (commits_of (past_of self.now)) version
            (arc_value key.now) p }

        // While a transaction is open at the version, the answer says how the journal decided a key
        // that is not injected.
        ensures decided { 0 < open_count (past_of self.now) version
            → U.meaning.kind (arc_value key.now) ≢ Injected
            → decided U.Key.eq (past_of self.now) version (arc_value key.now)
            ≡ decision_of (came_of result) }
        ensures lost { came_of result ≡ ToNothing
            → lost_in_epoch U.Key.eq (past_of self.now) version (arc_value key.now) ≡ true }

        // A key that is asked for has a task, or is injected.
        ensures asked { (i : ℕ) (a : Asking U.Key) → live_at (past_of self.now) i ≡ Some a
            → opened_at (past_of self.now) version a.opened ≡ true → a.key ≡ arc_value key.now
            → came_of result ≢ Absent }

        // If no task is ready and none is out, nothing is pending.
        ensures quiet { self.now.desk.ready ≡ [] → self.now.desk.out ≡ []
            → came_of result ≢ Pending }
    {
        laws_of::<U>();
        cells_are_the_inputs::<U>();
        polled_at(&self.shared, &self.sessions, &self.versions, version, key)
    }

    /// Applies changes together: those whose value is not the key's newest one are a commit, one
    /// event and one version more; with none of these nothing changes. The version is the newest
    /// one after it.
    ///
    /// The changes are tested first, in order: the first pair whose key is not injected, or stands
    /// in an earlier pair, is named. At a refusal all is as before. The tails of all entries that
    /// the commit reaches by recorded edges are cut at its version. It costs a look-up for each
    /// change, and for each recorded user of what is reached.
    pub fn commit<'a>(
        &mut self,
        by: u64,
        changes: &'a [(KeyRef<U>, ValueRef<U>)],
    ) -> Result<Version, CommitRefusal<'a, U>>
        ensures settable { OnOk result (AreSettable U.meaning (keys_of (pairs_of changes.now))) }
        ensures fault { IfErr result
            (λ e. IfSome (fault_of e) (IsFirstFault U.meaning (keys_of (pairs_of changes.now)))) }
        ensures first { (f : Fault U.Key)
            → IsFirstFault U.meaning (keys_of (pairs_of changes.now)) f
            → MatchResult result (λ _. ⊥) (λ e. IfSome (fault_of e) (λ g. g ≡ f)) }

        // Changes that can be set are committed, or memory was refused.
        ensures complete { AreSettable U.meaning (keys_of (pairs_of changes.now))
            → IfErr result (λ e. fault_of e ≡ None) }
        ensures version { IfOk result (λ v. v ≡ length (commits_of (past_of self.new))) }
        ensures events { OnOk result (events_of self.new
            ≡ events_of self.old
            ++ event_of by
            (differing_of U.Key.eq U.Value.eq U.meaning self.old.cells (pairs_of changes.now))) }
        ensures tasks { (self.new.tables ≡ self.old.tables)
            × (self.new.sessions ≡ self.old.sessions) × KeepsWork self.old.desk self.new.desk }
        ensures cut { OnOk result (CommitsEntries U.Key.eq U.meaning
            (differing_of U.Key.eq U.Value.eq U.meaning self.old.cells (pairs_of changes.now))
            (length (commits_of (past_of self.old)) + 1) self.old.entries self.new.entries) }
        ensures err { OnErr result (IsAsBefore U.Key.eq self.old self.new) }
    {
        laws_of::<U>();
        let Ok(_) = self.shared.desk.next_index() else {
            return Err(CommitRefusal::NoMemory);
        };
        commit(&mut self.shared, by, changes)
    }

    /// Opens a transaction at the newest version, and keeps room for its close; the index of its
    /// event is its name. If memory is refused all is as before.
    pub fn open(&mut self, by: u64) -> Result<u64, NoMemory>
        ensures index { IfOk result (λ t. t ≡ length (events_of self.old)) }
        ensures events { OnOk result (events_of self.new
            ≡ events_of self.old ++ Open by (length (commits_of (past_of self.old))) ∷ []) }
        ensures tasks { OnOk result (KeepsTasksOf U.Key.eq self.old self.new) }
        ensures rest { (self.new.entries ≡ self.old.entries) × (self.new.cells ≡ self.old.cells) }
        ensures err { OnErr result (IsAsBefore U.Key.eq self.old self.new) }
    {
        laws_of::<U>();
        open_at_newest(
            &mut self.spare,
            &mut self.shared.desk,
            &mut self.versions,
            &mut self.sessions,
            self.shared.cells.last(),
            by,
        )
    }

    /// Asks for a key in an open transaction, by a seat; the index of the event is the name of the
    /// ask. The key's task at the transaction's version is joined; if there is none, or one that
    /// was given up, it is made by what is known of the key. If memory is refused all is as before.
    pub fn ask(&mut self, by: u64, tx: u64, key: KeyRef<U>) -> Result<u64, NoMemory>
        requires { is_some (open_at (past_of self.old) tx) ≡ true }
        ensures index { IfOk result (λ i. i ≡ length (events_of self.old)) }
        ensures asked { OnOk result ((o : Opened) × (open_at (past_of self.old) tx ≡ Some o)
            × Turned U.Key.eq U.meaning o.version self.old.tables self.new.tables
            (λ ps qs. AsksForKey U.Key.eq U.meaning o.version by tx (arc_value key) ps qs
            self.old.entries self.new.entries self.old.desk self.new.desk)) }
        ensures rest { self.new.cells ≡ self.old.cells }
        ensures err { OnErr result (IsAsBefore U.Key.eq self.old self.new) }
    {
        laws_of::<U>();
        ask_in(
            &mut self.shared,
            &mut self.versions,
            &mut self.sessions,
            by,
            tx,
            key,
        )
    }

    /// Closes a transaction: its asks go, and the tasks that nobody asks for any more are dropped;
    /// with the last transaction of a version all its tasks go. It takes no memory.
    pub fn close(&mut self, tx: u64)
        requires { is_some (open_at (past_of self.old) tx) ≡ true }
        ensures log { (o : Opened) × (ks : List U.Key) × (open_at (past_of self.old) tx ≡ Some o)
            × (events_of self.new ≡ events_of self.old ++ (Close o.by tx ∷ map (Drop o.version) ks))
            × DropsThese U.Key.eq o.version (nat_eq (open_count (past_of self.new) o.version) 0) ks
            self.old.tables self.new.tables }

        // Whoever still asks is answered as before.
        ensures others { AnswersStay U.Key.eq U.meaning self.old self.new }
        ensures rest { (self.new.entries ≡ self.old.entries) × (self.new.cells ≡ self.old.cells) }
    {
        laws_of::<U>();
        close_in(
            &mut self.shared.desk,
            &mut self.versions,
            &mut self.sessions,
            &mut self.spare,
            tx,
        );
    }

    /// Leaves an ask, and drops the tasks that nobody asks for any more. It takes no memory.
    pub fn leave(&mut self, ask: u64)
        requires { is_some (live_at (past_of self.old) ask) ≡ true }
        ensures log { (a : Asking U.Key) × (o : Opened) × (ks : List U.Key)
            × (live_at (past_of self.old) ask ≡ Some a)
            × (open_at (past_of self.old) a.opened ≡ Some o)
            × (events_of self.new
            ≡ events_of self.old ++ (Leave a.by ask ∷ map (Drop o.version) ks))
            × DropsThese U.Key.eq o.version false ks self.old.tables self.new.tables }

        // Whoever still asks is answered as before.
        ensures others { AnswersStay U.Key.eq U.meaning self.old self.new }
        ensures rest { (self.new.entries ≡ self.old.entries) × (self.new.cells ≡ self.old.cells) }
    {
        laws_of::<U>();
        leave_ask(
            &mut self.shared.desk,
            &mut self.versions,
            &mut self.sessions,
            ask,
        );
    }

    /// Takes the job of a ready task, which is out then; `None` exactly if no task is ready. No
    /// clause says which of the ready tasks it is. It takes no memory.
    pub fn take_job(&mut self) -> Option<Job<U>>
        ensures none { IfNone result ((self.old.desk.ready ≡ []) × (self.new ≡ self.old)) }
        ensures some { IfSome result (λ j. TakesOut U.Key.eq j self.old self.new) }

        // Its answers are the values at its version, which is no later than the newest one; what it
        // checks is the key's value at its base.
        ensures answered { IfSome result
            (IsAnsweredIn U.Key.eq U.meaning (commits_of (past_of self.new))) }
        ensures events { events_of self.new ≡ events_of self.old }
        ensures rest { (self.new.entries ≡ self.old.entries) × (self.new.cells ≡ self.old.cells)
            × (self.new.sessions ≡ self.old.sessions) }
    {
        laws_of::<U>();
        self.shared.desk.turn();
        take_next(&mut self.shared.desk, &mut self.versions)
    }

    /// Brings a job back, undone: its task is ready again. It is handed back exactly if it is not
    /// the job of a task that is out. It takes no memory.
    pub fn back(&mut self, job: Job<U>) -> Option<Job<U>>
        ensures other { IfSome result (λ j. (j ≡ job) × IsAsBefore U.Key.eq self.old self.new
            × (IsJobOut U.Key.eq self.old job → ⊥)) }
        ensures back { IfNone result
            (IsJobOut U.Key.eq self.old job × TakesOut U.Key.eq job self.new self.old) }
        ensures events { events_of self.new ≡ events_of self.old }
        ensures rest { (self.new.entries ≡ self.old.entries) × (self.new.cells ≡ self.old.cells)
            × (self.new.sessions ≡ self.old.sessions) }
    {
        laws_of::<U>();
        bring_back(&mut self.shared.desk, &mut self.versions, job)
    }

    /// Gives up the job of this name, for which there is no memory. Its task and all that wait for
    /// it end as lost, one event each, and the tasks that nobody asks for any more are dropped;
    /// `false` exactly if no job of the name is out. It takes no memory.
    pub fn fail(&mut self, name: &JobName<U>) -> bool
        ensures out { IsTrue result ↔ IsNameOut U.Key.eq self.old name.now }
        ensures log { result ≡ true
            → (ls ks : List U.Key) × Has ls name.now.key
            × (events_of self.new
            ≡ events_of self.old
            ++ (map (Lost name.now.version) ls ++ map (Drop name.now.version) ks)) }
        ensures failed { result ≡ true
            → Turned U.Key.eq U.meaning name.now.version self.old.tables self.new.tables
            (λ ps qs. GivesUpAll U.Key.eq name.now.version None name.now.key ps qs self.old.desk
            self.new.desk) }
        ensures home { result ≡ true → IsNameOut U.Key.eq self.new name.now → ⊥ }
        ensures tasks { result ≡ true → GivesUpOnly U.Key.eq self.old self.new }

        // Of those that ask, only those are hurt whose tasks waited for the lost one.
        ensures others { result ≡ true
            → LosesWaitersOnly U.Key.eq U.meaning name.now self.old self.new }
        ensures other { result ≡ false → self.new ≡ self.old }
        ensures rest { (self.new.entries ≡ self.old.entries) × (self.new.cells ≡ self.old.cells)
            × (self.new.sessions ≡ self.old.sessions) }
    {
        laws_of::<U>();
        fail_named(&mut self.shared.desk, &mut self.versions, name)
    }

    /// Takes up a step: a value is kept and ends its task; a check that found all as it was keeps
    /// the earlier value; one that found a change makes its key be computed; and a batch makes its
    /// task wait for those of its keys that have not come to a value, or end with the cycle that it
    /// would close.
    ///
    /// `Stale` exactly if it is not the step of the job that is out: by its name, the batches that
    /// were answered, what is done, and of a check the value, trace and base; then nothing changes.
    /// If memory is refused all is as before, and the step comes back.
    pub fn give(&mut self, step: Step<U>) -> Result<Gave<U>, (NoMemory, Step<U>)>
        ensures stale { IfOk result (λ g. IfSome (stale_of g)
            (HandsBack U.Key.eq U.meaning U.Value.eq step self.old self.new)) }
        ensures taken { IfOk result (λ g. IfNone (stale_of g)
            (GivesStep U.Key.eq U.meaning U.Value.eq step self.old self.new)) }
        ensures does { IfOk result (λ g. IfNone (stale_of g)
            (DoesStep U.Key.eq U.meaning U.Value.eq step self.old self.new)) }
        ensures rest { (self.new.cells ≡ self.old.cells) × (self.new.sessions ≡ self.old.sessions) }
        ensures step { IfErr result (λ e. e.1 ≡ step) }
        ensures err { OnErr result
            (IsJobOut U.Key.eq self.old step.job × IsAsBefore U.Key.eq self.old self.new) }
    {
        laws_of::<U>();
        let owed = self.sessions.owed();
        give_in(&mut self.shared, &mut self.versions, owed, step)
    }

    /// Takes up a step whose answers are known to be the values at its version, as of a job that
    /// this core gave out. All is as by `give`; but no values are compared, since no other answers
    /// could be as many, and a key has one trace at a base.
    pub fn give_own(&mut self, step: Step<U>) -> Result<Gave<U>, (NoMemory, Step<U>)>
        requires { AnsweredTruly U.Key.eq U.meaning (commits_of (past_of self.old)) step.job }
        ensures stale { IfOk result (λ g. IfSome (stale_of g)
            (HandsBack U.Key.eq U.meaning U.Value.eq step self.old self.new)) }
        ensures taken { IfOk result (λ g. IfNone (stale_of g)
            (GivesStep U.Key.eq U.meaning U.Value.eq step self.old self.new)) }
        ensures does { IfOk result (λ g. IfNone (stale_of g)
            (DoesStep U.Key.eq U.meaning U.Value.eq step self.old self.new)) }
        ensures rest { (self.new.cells ≡ self.old.cells) × (self.new.sessions ≡ self.old.sessions) }
        ensures step { IfErr result (λ e. e.1 ≡ step) }
        ensures err { OnErr result
            (IsJobOut U.Key.eq self.old step.job × IsAsBefore U.Key.eq self.old self.new) }
    {
        laws_of::<U>();
        true_jobs_are_one::<U>();
        if !is_like_out(&self.versions, &step) {
            return Ok(Gave::Stale(step));
        }
        let owed = self.sessions.owed();
        take_up(&mut self.shared, &mut self.versions, owed, step)
    }

    /// How many tasks are ready.
    pub fn ready(&self) -> u64
        ensures { result ≡ length self.now.desk.ready }
    {
        self.shared.desk.ready() as u64
    }

    /// How many jobs are out.
    pub fn out(&self) -> u64
        ensures { result ≡ length self.now.desk.out }
    {
        self.shared.desk.out() as u64
    }

    /// The newest version: the number of commits.
    pub fn newest(&self) -> Version
        ensures { result ≡ length (commits_of (past_of self.now)) }
    {
        self.shared.cells.last()
    }

    /// The journal.
    pub fn journal(&self) -> &Journal<U>
        ensures { result.now.events ≡ events_of self.now }
    {
        self.shared.desk.journal()
    }

    /// Whether the transaction of this index is open.
    pub fn is_open(&self, tx: u64) -> bool
        ensures { result ≡ is_some (open_at (past_of self.now) tx) }
    {
        self.sessions.is_open(tx)
    }

    /// Whether the ask of this index was not left, and its transaction is open.
    pub fn stands(&self, ask: u64) -> bool
        ensures { result ≡ is_some (live_at (past_of self.now) ask) }
    {
        self.sessions.stands(ask)
    }
}

/// What a key has come to at a version: an injected one has its value only while a transaction is
/// open there.
fn polled_at<'a, U: Universe>(
    shared: &'a Shared<U>,
    sessions: &Sessions<U>,
    versions: &'a HashMap<u64, Tasks<U>>,
    version: u64,
    key: &KeyRef<U>,
) -> Polled<'a, U>
    ensures { came_of result
        ≡ injected_to (U.meaning.kind (arc_value key.now)) (open_count_of sessions.now.epochs
        version) (cell_at U.Key.eq U.meaning shared.now.cells version (arc_value key.now)) (held_to
        (task_at U.Key.eq (table_at versions.now.entries version) (arc_value key.now))) }
{
    match shared.universe.kind(key) {
        Kind::Injected if sessions.open_count(version) != 0 => {
            Polled::Value(shared.cells.at(version, key))
        }
        _ => polled(versions, version, key),
    }
}

/// What the task of a key has come to at a version.
fn polled<'a, U: Universe>(
    versions: &'a HashMap<u64, Tasks<U>>,
    version: u64,
    key: &KeyRef<U>,
) -> Polled<'a, U>
    ensures { came_of result
        ≡ held_to (task_at U.Key.eq (table_at versions.now.entries version) (arc_value key.now)) }
{
    let Some(tasks) = versions.get(&version) else {
        return Polled::Absent;
    };
    let Some(task) = tasks.task(key) else {
        return Polled::Absent;
    };
    match task.outcome() {
        Some(Outcome::Value(value)) => Polled::Value(value),
        Some(Outcome::Cycle(path)) => Polled::Cycle(path),
        Some(Outcome::Lost) => Polled::Lost,
        None => Polled::Pending,
    }
}
