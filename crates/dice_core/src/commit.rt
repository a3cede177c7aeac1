//! Commits.
ghost use Rattle.std.specs.Prelude.{◌≡◌, ◌<◌, ◌≤◌, ◌+◌, ℕ, suc, not, true, List, [], ◌++◌, ◌∷◌, if◌then◌else◌, length, map, reverse, IfOk, IfErr, OnOk, OnErr, IfSome, MatchResult};
ghost use Rattle.std.specs.Arc.{arc_value};
ghost use Rattle.std.specs.List.{AllByRecursion, list_any};
ghost use Rattle.std.specs.Map.{keys_of};
ghost use Rattle.dice_model.specs.Log.{pairs_of};
ghost use Rattle.injected.specs.Inputs.{AreOf};
ghost use Rattle.journal.specs.Law.{IsAllowed, IsLawfulJournal};
ghost use Rattle.dice_tasks.specs.Hands.{KeepsWork};
ghost use Rattle.journal.specs.Events.{event_of};
ghost use Rattle.dice_core.specs.Commits.{Fault, fault_of, AreSettable, IsFirstFault, differing_of, HaveRoom, SameSets, AreSet, Commits, CommitsEntries, IsAsBefore};
ghost use Rattle.dice_steps.specs.Cells.{CellsStand};
ghost use Rattle.lists.specs.Lists.{AreDistinct};

use dice_key::{KeyRef, Kind, NoMemory, Universe, ValueRef, Version, laws_of};
use dice_steps::{Shared, note};
use injected::{Cells, cells_are_the_inputs, cells_in_order};
use journal::{Changes, Event};
use small_set::SmallSet;
use std::alloc::Global;
use std::error::Error;
use std::fmt::{self, Debug, Display, Formatter};
use std::hash::Hash;
use std::sync::Arc;

/// Why a commit is refused.
#[derive(Drop)]
pub enum CommitRefusal<'a, U: Universe> {
    /// This key is not injected.
    NotInjected(&'a KeyRef<U>),
    /// This key stands in an earlier pair.
    Twice(&'a KeyRef<U>),
    /// Memory was refused.
    NoMemory,
}

impl<U: Universe> Debug for CommitRefusal<'_, U> {
    fn fmt<W: fmt::Write>(&self, f: &mut Formatter<W>) -> fmt::Result {
        match self {
            CommitRefusal::NotInjected(_) => f.write_str("NotInjected(_)"),
            CommitRefusal::Twice(_) => f.write_str("Twice(_)"),
            CommitRefusal::NoMemory => f.write_str("NoMemory"),
        }
    }
}

impl<U: Universe> Display for CommitRefusal<'_, U> {
    fn fmt<W: fmt::Write>(&self, f: &mut Formatter<W>) -> fmt::Result {
        match self {
            CommitRefusal::NotInjected(_) => f.write_str("a key is set that is not injected"),
            CommitRefusal::Twice(_) => f.write_str("a key is set twice in one commit"),
            CommitRefusal::NoMemory => f.write_str("no memory"),
        }
    }
}

impl<U: Universe> Error for CommitRefusal<'_, U> {}

/// Tests changes in order: each key has to be injected, and to stand in no earlier pair. The first
/// that fails is named.
pub(crate) fn check_changes<'a, U: Universe>(
    alloc: Global,
    universe: &U,
    changes: &'a [(KeyRef<U>, ValueRef<U>)],
) -> Result<(), CommitRefusal<'a, U>>
    ensures ok { OnOk result (AreSettable U.meaning (keys_of (pairs_of changes.now))) }
    ensures fault { IfErr result
        (λ e. IfSome (fault_of e) (IsFirstFault U.meaning (keys_of (pairs_of changes.now)))) }
    ensures first { (f : Fault U.Key) → IsFirstFault U.meaning (keys_of (pairs_of changes.now)) f
        → MatchResult result (λ _. ⊥) (λ e. IfSome (fault_of e) (λ g. g ≡ f)) }
{
    laws_of::<U>();
    let mut seen = SmallSet::new(alloc, universe.seed());
    for (key, _) in changes {
        match universe.kind(key) {
            Kind::Injected => {}
            _ => return Err(CommitRefusal::NotInjected(key)),
        }
        match note(&mut seen, key) {
            Ok(true) => {}
            Ok(false) => return Err(CommitRefusal::Twice(key)),
            Err(NoMemory) => return Err(CommitRefusal::NoMemory),
        }
    }
    Ok(())
}

/// The changes whose value is not the key's newest one, in order, shared.
pub(crate) fn differing<U: Universe>(
    alloc: Global,
    cells: &Cells<U>,
    changes: &[(KeyRef<U>, ValueRef<U>)],
) -> Result<Vec<(KeyRef<U>, ValueRef<U>)>, NoMemory>
    ensures { IfOk result (λ cs. pairs_of cs.items
        ≡ differing_of U.Key.eq U.Value.eq U.meaning cells.now (pairs_of changes.now)) }
{
    let mut differing = Vec::new(alloc);
    for (key, value) in changes {
        if **cells.newest(key) != **value {
            differing.push((Arc::try_clone(key)?, Arc::try_clone(value)?))?;
        }
    }
    Ok(differing)
}

/// The same changes again, shared.
fn copied_changes<K: Drop, V: Drop>(
    alloc: Global,
    changes: &[(Arc<K>, Arc<V>)],
) -> Result<Vec<(Arc<K>, Arc<V>)>, NoMemory>
    ensures { IfOk result (λ cs. pairs_of cs.items ≡ pairs_of changes.now) }
{
    let mut copies = Vec::with_capacity(alloc, changes.len())?;
    for (key, value) in changes {
        copies.push((Arc::try_clone(key)?, Arc::try_clone(value)?))?;
    }
    Ok(copies)
}

/// The keys of the changes, in order, shared.
fn changed_keys<K: Drop, V>(
    alloc: Global,
    changes: &[(Arc<K>, Arc<V>)],
) -> Result<Vec<Arc<K>>, NoMemory>
    ensures { IfOk result (λ ks. map arc_value ks.items ≡ keys_of (pairs_of changes.now)) }
{
    let mut keys = Vec::with_capacity(alloc, changes.len())?;
    for (key, _) in changes {
        keys.push(Arc::try_clone(key)?)?;
    }
    Ok(keys)
}

/// Makes room for one set of each key; nothing that is seen changes, even if memory is refused.
pub(crate) fn reserve_cells<U: Universe>(
    cells: &mut Cells<U>,
    changes: &[(KeyRef<U>, ValueRef<U>)],
) -> Result<(), NoMemory>
    ensures ok { OnOk result (HaveRoom U.Key.eq cells.new (pairs_of changes.now)) }
    ensures sets { SameSets U.Key.eq cells.old cells.new }
    ensures last { cells.new.last ≡ cells.old.last }
{
    laws_of::<U>();
    for (key, _) in changes {
        cells.reserve(Arc::try_clone(key)?)?;
    }
    Ok(())
}

/// Sets the changes at a version. It takes no memory.
///
/// So cells that were set as a log of commits says are set as that log with one more commit says.
pub(crate) fn set_cells<U: Universe>(
    cells: &mut Cells<U>,
    version: Version,
    changes: Vec<(KeyRef<U>, ValueRef<U>)>,
)
    requires room { HaveRoom U.Key.eq cells.old (pairs_of changes.items) }
    requires distinct { AreDistinct (keys_of (pairs_of changes.items)) }
    requires some { 0 < length (pairs_of changes.items) }
    requires rises { cells.old.last < version }
    ensures sets { AreSet U.Key.eq version (pairs_of changes.items) cells.old cells.new }
    ensures last { cells.new.last ≡ version }
    ensures are { (C : List (List (U.Key × U.Value))) → AreOf U.Key.eq C cells.old
        → version ≡ suc (length C) → AreOf U.Key.eq (C ++ pairs_of changes.items ∷ []) cells.new }
{
    laws_of::<U>();
    cells_in_order(cells);
    cells_are_the_inputs::<U>();
    for (key, value) in changes {
        cells.set(version, key, value).unwrap();
    }
}

/// Commits the changes that differ, if all keys are injected and distinct. At an error all is as
/// before.
fn commit_settable<U: Universe>(
    shared: &mut Shared<U>,
    by: u64,
    changes: &[(KeyRef<U>, ValueRef<U>)],
) -> Result<Version, NoMemory>
    requires settable { AreSettable U.meaning (keys_of (pairs_of changes.now)) }
    requires newest { shared.old.cells.last < u64.MAX }
    ensures version { IfOk result (λ v. v ≡ shared.new.cells.last) }
    ensures ok { OnOk result (Commits U.Key.eq by (differing_of U.Key.eq U.Value.eq U.meaning
        shared.old.cells (pairs_of changes.now)) shared.old.cells shared.new.cells
        shared.old.desk.events shared.new.desk.events) }
    ensures err { OnErr result (IsAsBefore U.Key.eq shared.old.cells shared.new.cells
        shared.old.desk.events shared.new.desk.events) }
    ensures cut { OnOk result (CommitsEntries U.Key.eq U.meaning (differing_of U.Key.eq U.Value.eq
        U.meaning shared.old.cells (pairs_of changes.now)) (shared.old.cells.last + 1)
        shared.old.graph shared.new.graph) }
    ensures graph { OnErr result (shared.new.graph ≡ shared.old.graph) }
    ensures hands { KeepsWork shared.old.desk shared.new.desk }
{
    let alloc = shared.alloc;
    let differing = differing(alloc, &shared.cells, changes)?;
    if differing.is_empty() {
        return Ok(shared.cells.last());
    }
    let version = shared.cells.last() + 1;
    let keys = changed_keys(alloc, &differing)?;
    let sets = copied_changes(alloc, &differing)?;
    shared.desk.reserve_event()?;
    reserve_cells(&mut shared.cells, &sets)?;
    shared.graph.commit(&keys, version)?;
    set_cells(&mut shared.cells, version, sets);
    shared
        .desk
        .push(Event::Commit(by, Changes::from_pairs(differing)));
    Ok(version)
}

/// Commits the changes whose value is not the key's newest one: one event, and one version more;
/// with none there is neither. The version is the newest one after it, and the tails of all entries
/// that the commit reaches are cut there. At a refusal all is as before.
///
/// All room that was made stays. It costs a look-up for each change, and for each recorded user of
/// what is reached.
pub(crate) fn commit<'a, U: Universe>(
    shared: &mut Shared<U>,
    by: u64,
    changes: &'a [(KeyRef<U>, ValueRef<U>)],
) -> Result<Version, CommitRefusal<'a, U>>
    requires { shared.old.cells.last < u64.MAX }

    // Faults of the changes.
    ensures settable { OnOk result (AreSettable U.meaning (keys_of (pairs_of changes.now))) }
    ensures fault { IfErr result
        (λ e. IfSome (fault_of e) (IsFirstFault U.meaning (keys_of (pairs_of changes.now)))) }
    ensures first { (f : Fault U.Key) → IsFirstFault U.meaning (keys_of (pairs_of changes.now)) f
        → MatchResult result (λ _. ⊥) (λ e. IfSome (fault_of e) (λ g. g ≡ f)) }

    // What is committed.
    ensures version { IfOk result (λ v. v ≡ shared.new.cells.last) }
    ensures ok { OnOk result (Commits U.Key.eq by (differing_of U.Key.eq U.Value.eq U.meaning
        shared.old.cells (pairs_of changes.now)) shared.old.cells shared.new.cells
        shared.old.desk.events shared.new.desk.events) }
    ensures err { OnErr result (IsAsBefore U.Key.eq shared.old.cells shared.new.cells
        shared.old.desk.events shared.new.desk.events) }
    ensures cut { OnOk result (CommitsEntries U.Key.eq U.meaning (differing_of U.Key.eq U.Value.eq
        U.meaning shared.old.cells (pairs_of changes.now)) (shared.old.cells.last + 1)
        shared.old.graph shared.new.graph) }
    ensures graph { OnErr result (shared.new.graph ≡ shared.old.graph) }
    ensures hands { KeepsWork shared.old.desk shared.new.desk }

    // What is kept.
    ensures kept { CellsStand U.Key.eq (reverse shared.old.desk.events) shared.old.cells
        → CellsStand U.Key.eq (reverse shared.new.desk.events) shared.new.cells }
    ensures allowed { OnOk result (CellsStand U.Key.eq (reverse shared.old.desk.events)
        shared.old.cells
        → AllByRecursion (IsAllowed U.Key.eq U.meaning (reverse shared.old.desk.events)) (event_of
        by (differing_of U.Key.eq U.Value.eq U.meaning shared.old.cells (pairs_of changes.now)))) }
    ensures lawful { CellsStand U.Key.eq (reverse shared.old.desk.events) shared.old.cells
        → IsLawfulJournal U.Key.eq U.meaning shared.old.desk.events
        → IsLawfulJournal U.Key.eq U.meaning shared.new.desk.events }
{
    laws_of::<U>();
    cells_are_the_inputs::<U>();
    check_changes(shared.alloc, &*shared.universe, changes)?;
    match commit_settable(shared, by, changes) {
        Ok(version) => Ok(version),
        Err(NoMemory) => Err(CommitRefusal::NoMemory),
    }
}
