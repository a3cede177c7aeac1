//! The entries of a graph.
ghost use Rattle.std.specs.Prelude.{◌≡◌, ◌≤◌, ◌||◌, ◌&&◌, ℕ, List, [], length, map, OnOk, OnErr, if◌then◌else◌, Some, true, false};
ghost use Rattle.std.specs.Arc.{arc_value};
ghost use Rattle.std.specs.List.{list_any};
ghost use Rattle.std.specs.Map.{lookup};
ghost use Rattle.std.specs.Option.{option_copied, option_map};
ghost use Rattle.dice_model.specs.Eval.{HasValue};
ghost use Rattle.versioned_graph.specs.Entries.{Kept, entry_at, kept_of, seen_at, cut_at, goes_in, written};
ghost use Rattle.versioned_graph.specs.Edges.{is_edge, deps_of};
ghost use Rattle.versioned_graph.specs.Looks.{look_of, look, Matches};
ghost use Rattle.versioned_graph.specs.Sound.{AreTrue};

use crate::entry::Entry;
use crate::found::{Found, Why};
use dice_key::{NoMemory, Seed, Universe, laws_of};
use std::alloc::Global;
use std::collections::HashMap;
use std::marker::Model;
use std::sync::Arc;

/// The entries, at most one a key.
#[derive(Drop)]
pub(crate) struct Store<U: Universe> {
    pub(crate) alloc: Global,
    pub(crate) universe: Arc<U>,
    entries: HashMap<Arc<U::Key>, Entry<U>, Seed>,
}

impl<U: Universe> Model for Store<U> {
    ghost use Rattle.std.specs.Prelude.{List, map};
    ghost use Rattle.versioned_graph.specs.Entries.{Stored, named};

    ghost Value = { List (U.Key × Stored U.Key U.Value) };

    ghost view = { λ g. map named g.entries.entries };
}

impl<U: Universe> Store<U> {
    /// No entry. It takes no memory.
    pub(crate) fn new(alloc: Global, universe: Arc<U>) -> Store<U>
        ensures { result ≡ [] }
    {
        let entries = HashMap::with_hasher(alloc, universe.seed());
        Store {
            alloc,
            universe,
            entries,
        }
    }

    /// The entry of a key.
    pub(crate) fn entry(&self, key: &Arc<U::Key>) -> Option<&Entry<U>>
        ensures entry { option_map (λ e. kept_of e.now) result
            ≡ entry_at U.Key.eq self.now (arc_value key.now) }
        ensures edges { (j : U.Key)
            → deps_of U.Key.eq (option_copied result) j
            ≡ is_edge U.Key.eq self.now j (arc_value key.now) }
    {
        self.entries.get(key)
    }

    /// What is known of a key at a version. It takes no memory, and costs one look-up and one
    /// binary search.
    pub(crate) fn lookup(&self, key: &Arc<U::Key>, version: u64) -> Found<'_, U>
        ensures exact { look_of result
            ≡ look U.meaning.is_transient (entry_at U.Key.eq self.now (arc_value key.now)) version }
        ensures value { (C : List (List (U.Key × U.Value))) (x : U.Value) (base : ℕ)
            → AreTrue U.Key.eq U.meaning C self.now → version ≤ length C
            → look_of result ≡ Matches x base
            → HasValue U.Key.eq U.meaning C version (arc_value key.now) x }
    {
        match self.entry(key) {
            None => Found::Compute(Why::New),
            Some(entry) => entry.look(&*self.universe, version),
        }
    }

    /// After a match notes that the key's value was seen at the version. It takes no memory.
    pub(crate) fn seen(&mut self, key: &Arc<U::Key>, version: u64)
        ensures entries { (q : U.Key)
            → entry_at U.Key.eq self.new q
            ≡ (if U.Key.eq (arc_value key.now) q
            then option_map (seen_at version) (entry_at U.Key.eq self.old (arc_value key.now))
            else entry_at U.Key.eq self.old q) }
        ensures edges { (j : U.Key) (q : U.Key)
            → is_edge U.Key.eq self.new j q ≡ is_edge U.Key.eq self.old j q }
        ensures kept { (C : List (List (U.Key × U.Value))) (e : Kept U.Key U.Value)
            → AreTrue U.Key.eq U.meaning C self.old → version ≤ length C
            → entry_at U.Key.eq self.old (arc_value key.now) ≡ Some e → e.ranges version ≡ true
            → AreTrue U.Key.eq U.meaning C self.new }
    {
        laws_of::<U>();
        if let Some(entry) = self.entries.get_mut(key) {
            entry.see(version);
        }
    }

    /// Writes an entry: over none, joined with one of the same value, or in place of one that is
    /// not later. At an error all is as before.
    pub(crate) fn put(&mut self, key: Arc<U::Key>, next: Entry<U>) -> Result<(), NoMemory>
        ensures ok { OnOk result ((q : U.Key)
            → entry_at U.Key.eq self.new q
            ≡ (if U.Key.eq (arc_value key) q
            then Some (written U.meaning U.Value.eq (entry_at U.Key.eq self.old (arc_value key))
            (kept_of next))
            else entry_at U.Key.eq self.old q)) }
        ensures edges { OnOk result ((j : U.Key) (q : U.Key)
            → is_edge U.Key.eq self.new j q
            ≡ (is_edge U.Key.eq self.old j q
            || (U.Key.eq (arc_value key) q
            && (goes_in U.meaning U.Value.eq (entry_at U.Key.eq self.old (arc_value key))
            (kept_of next) && list_any (U.Key.eq j) next.deps)))) }
        ensures err { OnErr result (self.new ≡ self.old) }
    {
        laws_of::<U>();
        if let Some(entry) = self.entries.get_mut(&key) {
            return entry.take_in(&*self.universe, next);
        }
        self.entries.insert(key, next)?;
        Ok(())
    }

    /// Cuts the tail of a key's entry at a version, and takes away the edges to the key. It takes
    /// no memory.
    pub(crate) fn cut(&mut self, key: &Arc<U::Key>, version: u64)
        ensures entries { (q : U.Key)
            → entry_at U.Key.eq self.new q
            ≡ (if U.Key.eq (arc_value key.now) q
            then option_map (cut_at version) (entry_at U.Key.eq self.old (arc_value key.now))
            else entry_at U.Key.eq self.old q) }
        ensures edges { (j : U.Key) (q : U.Key)
            → is_edge U.Key.eq self.new j q
            ≡ (if U.Key.eq (arc_value key.now) q then false else is_edge U.Key.eq self.old j q) }
    {
        laws_of::<U>();
        if let Some(entry) = self.entries.get_mut(key) {
            entry.cut(version);
        }
    }

    /// Whether an edge is recorded from the first key to the second.
    pub(crate) fn is_edge(&self, from: &Arc<U::Key>, to: &Arc<U::Key>) -> bool
        ensures { result ≡ is_edge U.Key.eq self.now (arc_value from.now) (arc_value to.now) }
    {
        match self.entry(to) {
            Some(entry) => entry.has_edge_from(from),
            None => false,
        }
    }
}
