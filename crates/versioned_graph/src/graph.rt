//! The graph.
ghost use Rattle.std.specs.Prelude.{◌≡◌, ◌<◌, ◌≤◌, ◌++◌, ◌∷◌, ℕ, List, [], length, map, suc, OnOk, OnErr, if◌then◌else◌, Some, true, false};
ghost use Rattle.std.specs.Arc.{arc_value};
ghost use Rattle.std.specs.Map.{keys_of};
ghost use Rattle.std.specs.Option.{option_map};
ghost use Rattle.injected.specs.Seen.{cell_at};
ghost use Rattle.dice_model.specs.Asks.{IsTrace};
ghost use Rattle.dice_model.specs.Eval.{HasValue};
ghost use Rattle.versioned_graph.specs.Edges.{CommitReaches, Records, IsCut, is_edge};
ghost use Rattle.versioned_graph.specs.Entries.{Kept, entry_at, finished, kept_of, seen_at, writers_with, writes_trace, written};
ghost use Rattle.versioned_graph.specs.Looks.{look_of, look, Matches};
ghost use Rattle.versioned_graph.specs.Sound.{AreTrue, AreTracedAt, Holds};
ghost use Rattle.lists.specs.Lists.{Has};

use crate::cut::cut_reached;
use crate::entry::Entry;
use crate::finish::link_open;
use crate::found::Found;
use crate::reach::reached;
use crate::store::Store;
use crate::users::Users;
use dep_recorder::Trace;
use dice_key::{NoMemory, Universe, laws_of};
use injected::Cells;
use std::alloc::Global;
use std::marker::Model;
use std::sync::Arc;
use version_ranges::open_has_a_tail;

/// The values that were finished, at most one a key, each with the versions at which it is known to
/// hold; and the edges that were recorded, from keys to those whose values were computed from them.
///
/// Ranges without an end say that the value holds at the newest version, and at each later one
/// until a commit cuts them.
///
/// Contracts see the entries as a list, in an order that means nothing; `entry_at` is the entry of
/// a key, `is_edge` tells the edges.
pub struct Graph<U: Universe> {
    alloc: Global,
    store: Store<U>,
    users: Users<U>,
}

// (One function for all places that drop one: a derived drop is written out at each.)
impl<U: Universe> Drop for Graph<U> {
    fn drop(self) {
        let Graph {
            alloc: _,
            store: _store,
            users: _users,
        } = self;
    }
}

impl<U: Universe> Model for Graph<U> {
    ghost use Rattle.std.specs.Prelude.{List};
    ghost use Rattle.versioned_graph.specs.Entries.{Stored};
    ghost use Rattle.versioned_graph.specs.Users.{IsIndexed};

    ghost Value = { List (U.Key × Stored U.Key U.Value) };

    ghost view = { λ g. g.store };

    ghost invariant = { λ g. IsIndexed U.Key.eq g.store g.users };
}

impl<U: Universe> Graph<U> {
    /// Nothing was finished yet. It takes no memory.
    pub fn new(alloc: Global, universe: Arc<U>) -> Graph<U>
        ensures { result ≡ [] }
    {
        let users = Users::new(alloc, universe.seed());
        Graph {
            alloc,
            store: Store::new(alloc, universe),
            users,
        }
    }

    /// What is known of a key at a version. It takes no memory, and costs one look-up and one
    /// binary search.
    pub fn lookup(&self, key: &Arc<U::Key>, version: u64) -> Found<'_, U>
        ensures exact { look_of result
            ≡ look U.meaning.is_transient (entry_at U.Key.eq self.now (arc_value key.now)) version }
        ensures value { (C : List (List (U.Key × U.Value))) (x : U.Value) (base : ℕ)
            → AreTrue U.Key.eq U.meaning C self.now → version ≤ length C
            → look_of result ≡ Matches x base
            → HasValue U.Key.eq U.meaning C version (arc_value key.now) x }
    {
        self.store.lookup(key, version)
    }

    /// What is kept of a key, if anything. It costs one look-up.
    pub fn entry(&self, key: &Arc<U::Key>) -> Option<&Entry<U>>
        ensures { option_map (λ e. kept_of e.now) result
            ≡ entry_at U.Key.eq self.now (arc_value key.now) }
    {
        self.store.entry(key)
    }

    /// After a match notes that the key's value was seen at the version. It takes no memory.
    pub fn seen(&mut self, key: &Arc<U::Key>, version: u64)
        ensures entries { (q : U.Key)
            → entry_at U.Key.eq self.new q
            ≡ (if U.Key.eq (arc_value key.now) q
            then option_map (seen_at version) (entry_at U.Key.eq self.old (arc_value key.now))
            else entry_at U.Key.eq self.old q) }
        ensures edges { (j : U.Key) (q : U.Key)
            → is_edge U.Key.eq self.new j q ≡ is_edge U.Key.eq self.old j q }
        ensures kept { (C : List (List (U.Key × U.Value))) (e : Kept U.Key U.Value)
            → AreTrue U.Key.eq U.meaning C self.old → version ≤ length C
            → entry_at U.Key.eq self.old (arc_value key.now) ≡ Some e → e.ranges version ≡ true
            → AreTrue U.Key.eq U.meaning C self.new }

        // Each trace is still that of the finish that wrote it, at the version that `w` tells.
        ensures traced { (C : List (List (U.Key × U.Value))) (w : U.Key → ℕ)
            → AreTracedAt U.Key.eq U.meaning C w self.old
            → AreTracedAt U.Key.eq U.meaning C w self.new }
    {
        laws_of::<U>();
        self.store.seen(key, version);
    }

    /// Keeps the value of a key at a version, by the trace through which it came there, with the
    /// other versions at which the value is then known; if these have no end and go into the
    /// entry, an edge to the key is recorded from each key of the trace. At an error all is as
    /// before.
    ///
    /// It costs a look-up for each key of the trace, a binary search in the entry's ranges and in
    /// the sets of each source among those keys, and the edges to the key that are there already.
    pub fn finish(
        &mut self,
        cells: &Cells<U>,
        key: Arc<U::Key>,
        version: u64,
        value: Arc<U::Value>,
        trace: Arc<Trace<U>>,
    ) -> Result<(), NoMemory>
        requires { version < u64.MAX }
        ensures ok { OnOk result ((q : U.Key)
            → entry_at U.Key.eq self.new q
            ≡ (if U.Key.eq (arc_value key) q
            then Some (written U.meaning U.Value.eq (entry_at U.Key.eq self.old (arc_value key))
            (finished U.meaning U.Value.eq (cell_at U.Key.eq U.meaning cells.now)
            (entry_at U.Key.eq self.old) version (arc_value value) (arc_value trace)))
            else entry_at U.Key.eq self.old q)) }
        ensures edges { OnOk result (Records U.Key.eq U.meaning U.Value.eq (arc_value key)
            (finished U.meaning U.Value.eq (cell_at U.Key.eq U.meaning cells.now)
            (entry_at U.Key.eq self.old) version (arc_value value) (arc_value trace)) self.old
            self.new) }
        ensures kept { OnOk result ((C : List (List (U.Key × U.Value)))
            → Holds U.Key.eq U.meaning C (cell_at U.Key.eq U.meaning cells.now) → version ≤ length C
            → IsTrace U.Key.eq U.meaning C version (arc_value key) (arc_value trace)
            (arc_value value) → AreTrue U.Key.eq U.meaning C self.old
            → AreTrue U.Key.eq U.meaning C self.new) }

        // If the entry was not newer, its trace is the one that was given, and of this version;
        // each other one is as before. (`w` tells of each key the version of the finish that wrote
        // its trace.)
        ensures traced { OnOk result ((C : List (List (U.Key × U.Value))) (w : U.Key → ℕ)
            → IsTrace U.Key.eq U.meaning C version (arc_value key) (arc_value trace)
            (arc_value value) → AreTracedAt U.Key.eq U.meaning C w self.old
            → AreTracedAt U.Key.eq U.meaning C (writers_with U.Key.eq (arc_value key)
            (writes_trace (entry_at U.Key.eq self.old (arc_value key)) version) version w)
            self.new) }
        ensures err { OnErr result (self.new ≡ self.old) }
    {
        laws_of::<U>();
        let ranges = self.store.marked(cells, version, &value, &trace)?;
        open_has_a_tail(&ranges);
        let deps = link_open(self.alloc, &ranges, &mut self.users, &key, &trace)?;
        let entry = Entry {
            value,
            trace,
            ranges,
            version,
            deps,
        };
        self.store.put(key, entry)?;
        Ok(())
    }

    /// A commit changes the inputs of these keys, from the version on. The tails of all that it
    /// reaches by recorded edges are cut there, and all edges to what it reaches are taken away. At
    /// an error all is as before.
    ///
    /// The entries stay true if these are all the keys that the commit sets, and its version is
    /// the one after the newest. It costs a look-up for each key that has used one that is reached
    /// since that was last reached.
    pub fn commit(&mut self, changed: &[Arc<U::Key>], version: u64) -> Result<(), NoMemory>
        ensures cut { OnOk result
            (IsCut U.Key.eq self.old (map arc_value changed.now) version self.new) }
        ensures kept { OnOk result ((C : List (List (U.Key × U.Value))) (c : List (U.Key × U.Value))
            → version ≡ suc (length C)
            → ((k : U.Key) → Has (keys_of c) k → Has (map arc_value changed.now) k)
            → AreTrue U.Key.eq U.meaning C self.old
            → AreTrue U.Key.eq U.meaning (C ++ c ∷ []) self.new) }

        // No edge is left from a key that it reached; each trace is still that of the finish that
        // wrote it.
        ensures unused { OnOk result ((j : U.Key) (q : U.Key)
            → CommitReaches U.Key.eq self.old (map arc_value changed.now) j
            → is_edge U.Key.eq self.new j q ≡ false) }
        ensures traced { OnOk result ((C : List (List (U.Key × U.Value)))
            (c : List (U.Key × U.Value)) (w : U.Key → ℕ) → AreTrue U.Key.eq U.meaning C self.old
            → AreTracedAt U.Key.eq U.meaning C w self.old
            → AreTracedAt U.Key.eq U.meaning (C ++ c ∷ []) w self.new) }
        ensures err { OnErr result (self.new ≡ self.old) }
    {
        laws_of::<U>();
        let reached = reached(self.alloc, &self.store, &self.users, changed)?;
        cut_reached(&mut self.store, &mut self.users, &reached, version);
        Ok(())
    }
}
