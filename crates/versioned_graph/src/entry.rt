//! What is kept of a key.
ghost use Rattle.std.specs.Prelude.{◌≡◌, ℕ, Bool, true, false, ◌&&◌, ◌||◌, [], map, not, IfOk, OnOk, OnErr, Some};
ghost use Rattle.std.specs.Arc.{arc_value};
ghost use Rattle.std.specs.List.{list_any};
ghost use Rattle.version_ranges.specs.Members.{contains};
ghost use Rattle.versioned_graph.specs.Entries.{Stored, Kept, kept_of, joined, seen_at, cut_at, goes_in, written};
ghost use Rattle.versioned_graph.specs.Looks.{look_of, look};

use crate::found::{Found, Why};
use dep_recorder::Trace;
use dice_key::{NoMemory, Universe, laws_of};
use small_set::SmallSet;
use std::marker::Model;
use std::mem::swap;
use std::sync::Arc;
use version_ranges::Ranges;

/// A value that was finished, the trace of its finish, the versions at which it is known to hold,
/// and the greatest version at which it was finished or seen; and the keys from which an edge to
/// its key is recorded.
pub struct Entry<U: Universe> {
    pub(crate) value: Arc<U::Value>,
    pub(crate) trace: Arc<Trace<U>>,
    pub(crate) ranges: Ranges,
    pub(crate) version: u64,
    pub(crate) deps: SmallSet<Arc<U::Key>>,
}

// (One function for all places that drop one: a derived drop is written out at each.)
impl<U: Universe> Drop for Entry<U> {
    fn drop(self) {
        let Entry {
            value: _value,
            trace: _trace,
            ranges: _ranges,
            version: _,
            deps: _deps,
        } = self;
    }
}

impl<U: Universe> Model for Entry<U> {
    ghost use Rattle.std.specs.Prelude.{map};
    ghost use Rattle.std.specs.Arc.{arc_value};
    ghost use Rattle.versioned_graph.specs.Entries.{Stored};

    ghost Value = { Stored U.Key U.Value };

    ghost view = { λ e. record {
      value = arc_value e.value;
      trace = arc_value e.trace;
      ranges = e.ranges;
      version = e.version;
      deps = map arc_value e.deps;
    } };
}

impl<U: Universe> Entry<U> {
    /// The value.
    pub fn value(&self) -> &Arc<U::Value>
        ensures { arc_value result.now ≡ self.now.value }
    {
        &self.value
    }

    /// Whether the value is known to hold at a version. It costs a binary search.
    pub fn holds_at(&self, version: u64) -> bool
        ensures { result ≡ contains self.now.ranges version }
    {
        self.ranges.contains(version)
    }

    /// What the entry answers at a version.
    pub(crate) fn look(&self, universe: &U, version: u64) -> Found<'_, U>
        ensures { look_of result ≡ look U.meaning.is_transient (Some (kept_of self.now)) version }
    {
        let known = self.ranges.contains(version);
        if known {
            Found::Match(&self.value, self.version)
        } else if universe.is_transient(&self.value) {
            Found::Compute(Why::Transient(self.version))
        } else {
            Found::CheckDeps(&self.value, &self.trace, self.version)
        }
    }

    /// Whether an edge from a key to the entry's own is recorded.
    pub(crate) fn has_edge_from(&self, from: &Arc<U::Key>) -> bool
        ensures { result ≡ list_any (U.Key.eq (arc_value from.now)) self.now.deps }
    {
        self.deps.contains(from)
    }

    /// Notes that the entry was seen at a version.
    pub(crate) fn see(&mut self, version: u64)
        ensures kept { kept_of self.new ≡ seen_at version (kept_of self.old) }
        ensures deps { self.new.deps ≡ self.old.deps }
    {
        self.version = self.version.max(version);
    }

    /// Cuts the tail at a version, and takes away the edges to the key. It takes no memory.
    pub(crate) fn cut(&mut self, version: u64)
        ensures kept { kept_of self.new ≡ cut_at version (kept_of self.old) }
        ensures deps { self.new.deps ≡ [] }
    {
        self.ranges.close_at(version);
        self.deps.clear();
    }

    /// The same, with the edges of an earlier entry too.
    fn with_edges_of(self, earlier: &Entry<U>) -> Result<Entry<U>, NoMemory>
        ensures kept { IfOk result (λ e. kept_of e ≡ kept_of self) }
        ensures deps { IfOk result (λ e. (j : U.Key)
            → list_any (U.Key.eq j) e.deps
            ≡ (list_any (U.Key.eq j) earlier.now.deps || list_any (U.Key.eq j) self.deps)) }
    {
        let mut entry = self;
        add_all::<U>(&mut entry.deps, &earlier.deps)?;
        Ok(entry)
    }

    /// Takes in one of the same value: the ranges of both, and the trace of the later one. At an
    /// error all is as before.
    fn join(&mut self, next: Entry<U>) -> Result<(), NoMemory>
        ensures kept { OnOk result
            (kept_of self.new ≡ joined U.meaning U.Value.eq (kept_of self.old) (kept_of next)) }
        ensures deps { OnOk result ((j : U.Key)
            → list_any (U.Key.eq j) self.new.deps
            ≡ (list_any (U.Key.eq j) self.old.deps || list_any (U.Key.eq j) next.deps)) }
        ensures err { OnErr result (self.new ≡ self.old) }
    {
        let mut next = next.with_edges_of(self)?;
        add(&mut self.ranges, &next.ranges)?;
        swap(&mut self.deps, &mut next.deps);
        if self.version > next.version {
            return Ok(());
        }
        swap(&mut self.trace, &mut next.trace);
        self.version = next.version;
        Ok(())
    }

    /// Whether a finish of the same value was made, and the value is not transient.
    fn joins(&self, universe: &U, next: &Entry<U>) -> bool
        ensures { result
            ≡ (U.Value.eq self.now.value next.now.value
            && not (U.meaning.is_transient self.now.value)) }
    {
        *self.value == *next.value && !universe.is_transient(&self.value)
    }

    /// Takes in what a finish has made: joined with it, in its place, or not at all. At an error
    /// all is as before.
    pub(crate) fn take_in(&mut self, universe: &U, next: Entry<U>) -> Result<(), NoMemory>
        ensures kept { OnOk result (kept_of self.new
            ≡ written U.meaning U.Value.eq (Some (kept_of self.old)) (kept_of next)) }
        ensures deps { OnOk result ((j : U.Key)
            → list_any (U.Key.eq j) self.new.deps
            ≡ (list_any (U.Key.eq j) self.old.deps
            || (goes_in U.meaning U.Value.eq (Some (kept_of self.old)) (kept_of next)
            && list_any (U.Key.eq j) next.deps))) }
        ensures err { OnErr result (self.new ≡ self.old) }
    {
        if self.joins(universe, &next) {
            return self.join(next);
        }
        if self.version <= next.version {
            *self = next.with_edges_of(self)?;
        }
        Ok(())
    }
}

/// Adds these keys to a set.
fn add_all<U: Universe>(
    keys: &mut SmallSet<Arc<U::Key>>,
    others: &SmallSet<Arc<U::Key>>,
) -> Result<(), NoMemory>
    ensures { OnOk result ((q : U.Key)
        → list_any (λ a. U.Key.eq q (arc_value a)) keys.new
        ≡ (list_any (λ a. U.Key.eq q (arc_value a)) others.now
        || list_any (λ a. U.Key.eq q (arc_value a)) keys.old)) }
{
    laws_of::<U>();
    for key in others.as_slice() {
        keys.insert(Arc::try_clone(key)?)?;
    }
    Ok(())
}

/// Adds the versions of another set. At an error all is as before.
fn add(ranges: &mut Ranges, others: &Ranges) -> Result<(), NoMemory>
    ensures ok { OnOk result
        ((w : ℕ) → contains ranges.new w ≡ (contains ranges.old w || contains others.now w)) }
    ensures err { OnErr result (ranges.new ≡ ranges.old) }
{
    ranges.add(others).map_err(|_| NoMemory)
}
