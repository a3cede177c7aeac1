//! Values that are looked up and finished.
ghost use Rattle.std.specs.Prelude.{◌≡◌, ◌<◌, ◌≤◌, ℕ, List, ◌∷◌, length, OnOk, OnErr, if◌then◌else◌, Some};
ghost use Rattle.std.specs.Arc.{arc_value};
ghost use Rattle.std.specs.Option.{option_map};
ghost use Rattle.dice_model.specs.Asks.{IsTrace};
ghost use Rattle.injected.specs.Inputs.{AreOf};
ghost use Rattle.injected.specs.Seen.{cell_at};
ghost use Rattle.versioned_graph.specs.Edges.{is_edge, Records};
ghost use Rattle.versioned_graph.specs.Entries.{entry_at, seen_at, finished, written};
ghost use Rattle.versioned_graph.specs.Looks.{look_of, look};
ghost use Rattle.journal.specs.declared.event.Told.{Told};
ghost use Rattle.journal.specs.declared.event.Told.TheVariants.{End, Keep};
ghost use Rattle.journal.specs.Events.{commits_of};
ghost use Rattle.journal.specs.Tell.{reason_of};
ghost use Rattle.dice_tasks.specs.Entries.{EntriesStand, IsMatched, LookStands, started_for};

use dep_recorder::Trace;
use dice_key::{KeyRef, NoMemory, Universe, ValueRef, laws_of};
use injected::{Cells, cells_are_the_inputs};
use journal::Cause;
use std::sync::Arc;
use versioned_graph::{Found, Graph, Why};

/// What is known of a key at a version. It takes no memory, and costs one look-up and one binary
/// search.
pub fn looked<'a, U: Universe>(graph: &'a Graph<U>, key: &KeyRef<U>, version: u64) -> Found<'a, U>
    ensures exact { look_of result
        ≡ look U.meaning.is_transient (entry_at U.Key.eq graph.now (arc_value key.now)) version }
    ensures says { (R : List (Told U.Key U.Value)) → EntriesStand U.Key.eq U.meaning R graph.now
        → version ≤ length (commits_of R)
        → LookStands U.Key.eq U.meaning R graph.now version (arc_value key.now) (look_of result) }
{
    graph.lookup(key, version)
}

/// Why a key that has to be computed is started.
pub(crate) fn cause_of<K: Drop>(why: Why) -> Cause<K>
    ensures { reason_of result ≡ started_for why }
{
    match why {
        Why::New => Cause::New,
        Why::Transient(version) => Cause::Transient(version),
    }
}

/// After a match notes that the key's value was seen at the version. It takes no memory.
pub(crate) fn seen<U: Universe>(graph: &mut Graph<U>, key: &KeyRef<U>, version: u64)
    ensures entries { (q : U.Key)
        → entry_at U.Key.eq graph.new q
        ≡ (if U.Key.eq (arc_value key.now) q
        then option_map (seen_at version) (entry_at U.Key.eq graph.old (arc_value key.now))
        else entry_at U.Key.eq graph.old q) }
    ensures edges { (j : U.Key) (q : U.Key)
        → is_edge U.Key.eq graph.new j q ≡ is_edge U.Key.eq graph.old j q }
    ensures kept { (R : List (Told U.Key U.Value)) (x : U.Value) (base : ℕ)
        → EntriesStand U.Key.eq U.meaning R graph.old → version ≤ length (commits_of R)
        → IsMatched U.Key.eq U.meaning R graph.old version (arc_value key.now) x base
        → EntriesStand U.Key.eq U.meaning (Keep version (arc_value key.now) base ∷ R) graph.new }
{
    laws_of::<U>();
    graph.seen(key, version);
}

/// Keeps the value that a key was decided by at a version, with the trace through which it came
/// there. At an error all is as before. It costs what `Graph::finish` does.
pub fn finish<U: Universe>(
    graph: &mut Graph<U>,
    cells: &Cells<U>,
    key: KeyRef<U>,
    version: u64,
    value: ValueRef<U>,
    trace: Arc<Trace<U>>,
) -> Result<(), NoMemory>
    requires version { version < u64.MAX }
    ensures entries { OnOk result ((q : U.Key)
        → entry_at U.Key.eq graph.new q
        ≡ (if U.Key.eq (arc_value key) q
        then Some (written U.meaning U.Value.eq (entry_at U.Key.eq graph.old (arc_value key))
        (finished U.meaning U.Value.eq (cell_at U.Key.eq U.meaning cells.now)
        (entry_at U.Key.eq graph.old) version (arc_value value) (arc_value trace)))
        else entry_at U.Key.eq graph.old q)) }
    ensures edges { OnOk result (Records U.Key.eq U.meaning U.Value.eq (arc_value key)
        (finished U.meaning U.Value.eq (cell_at U.Key.eq U.meaning cells.now)
        (entry_at U.Key.eq graph.old) version (arc_value value) (arc_value trace)) graph.old
        graph.new) }
    ensures ended { OnOk result ((R : List (Told U.Key U.Value))
        → EntriesStand U.Key.eq U.meaning R graph.old → AreOf U.Key.eq (commits_of R) cells.now
        → version ≤ length (commits_of R)
        → IsTrace U.Key.eq U.meaning (commits_of R) version (arc_value key) (arc_value trace)
        (arc_value value)
        → EntriesStand U.Key.eq U.meaning (End version (arc_value key) ∷ R) graph.new) }
    ensures kept { OnOk result ((R : List (Told U.Key U.Value)) (base : ℕ)
        → EntriesStand U.Key.eq U.meaning R graph.old → AreOf U.Key.eq (commits_of R) cells.now
        → version ≤ length (commits_of R)
        → IsTrace U.Key.eq U.meaning (commits_of R) version (arc_value key) (arc_value trace)
        (arc_value value)
        → EntriesStand U.Key.eq U.meaning (Keep version (arc_value key) base ∷ R) graph.new) }
    ensures err { OnErr result (graph.new ≡ graph.old) }
{
    laws_of::<U>();
    cells_are_the_inputs::<U>();
    graph.finish(cells, key, version, value, trace)?;
    Ok(())
}
