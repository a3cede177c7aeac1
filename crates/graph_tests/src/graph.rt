//! Look-ups and finishes on the example universe: calls one after another, with what look-ups
//! answer.
//!
//! The key asked for is the sum of cell 1 and itself, so it asks cell 1 alone; cell 3 is one that
//! it does not ask.
ghost use Rattle.std.specs.Prelude.{◌≡◌, length, IfOk};

use dep_recorder::{Recorder, Trace};
use dice_key::{Answers, Batch, NoMemory};
use injected::{Cells, cells_in_order};
use std::alloc::Global;
use std::sync::Arc;
use std::test::Fail;
use tiny_universe::{Place, Tiny, Value};
use versioned_graph::{Found, Graph, Why};

const KEY: Place = Place::Sum(1, 1);

/// A key that asks `KEY`.
const USER: Place = Place::Parity(1);

const TEN: Value = Value::Number(10);

const TWELVE: Value = Value::Number(12);

/// What a look-up answers; of a trace the number of its batches.
#[derive(Clone, Copy, PartialEq)]
enum Seen {
    Match(Value, u64),
    New,
    Transient(u64),
    Check(Value, usize, u64),
}

fn seen_of(found: Found<'_, Tiny>) -> Seen {
    match found {
        Found::Match(value, base) => Seen::Match(**value, base),
        Found::Compute(Why::New) => Seen::New,
        Found::Compute(Why::Transient(base)) => Seen::Transient(base),
        Found::CheckDeps(value, trace, base) => Seen::Check(**value, trace.len(), base),
    }
}

/// A key twice.
fn batch_of(alloc: Global, key: Place) -> Result<Batch<Place>, NoMemory>
    ensures { IfOk result (λ b. length b ≡ 2) }
{
    let key = Arc::new(alloc, key)?;
    let keys = vec![in alloc; Arc::try_clone(&key)?, key]?;
    Ok(Batch::from_keys(keys))
}

/// A number twice.
fn answers_of(alloc: Global, number: u64) -> Result<Answers<Value>, NoMemory>
    ensures { IfOk result (λ a. length a ≡ 2) }
{
    let value = Arc::new(alloc, Value::Number(number))?;
    let values = vec![in alloc; Arc::try_clone(&value)?, value]?;
    Ok(Answers::from_values(values))
}

/// A trace of one batch, in which a key was asked twice and answered with a number each time.
fn asked_twice(alloc: Global, key: Place, number: u64) -> Result<Arc<Trace<Tiny>>, NoMemory> {
    let mut recorder = Recorder::new(alloc);
    recorder.ask(batch_of(alloc, key)?)?;
    recorder.answer(answers_of(alloc, number)?)?;
    Ok(Arc::new(alloc, recorder.finish())?)
}

/// A call, or what a look-up has to answer.
enum Call {
    /// A cell is set to a number at this version.
    Commit(u64, u32, u64),
    /// The key is finished at a version with a value; it asked another key, which was answered with
    /// this number.
    Finish(Place, u64, Value, Place, u64),
    /// The value of the key was used at this version.
    See(Place, u64),
    /// The key is looked up at a version, and this is the answer.
    Look(Place, u64, Seen),
    /// The key is looked up at a version, and has no match.
    NoMatch(Place, u64),
}

/// Cells, and a graph over them.
struct World {
    alloc: Global,
    cells: Cells<Tiny>,
    graph: Graph<Tiny>,
}

// (One function for all places that drop one: a derived drop is written out at each.)
impl Drop for World {
    fn drop(self) {
        let World {
            alloc: _,
            cells: _cells,
            graph: _graph,
        } = self;
    }
}

impl World {
    fn new(alloc: Global) -> Result<World, NoMemory> {
        let universe = Arc::new(alloc, Tiny::new(alloc)?)?;
        let cells = Cells::new(alloc, Arc::try_clone(&universe)?);
        let graph = Graph::new(alloc, universe);
        Ok(World {
            alloc,
            cells,
            graph,
        })
    }

    /// Commits one set, of a cell at a version above all that were set; whether it was above them.
    fn commit(&mut self, version: u64, cell: u32, number: u64) -> Result<bool, NoMemory> {
        if version <= self.cells.last() {
            return Ok(false);
        }
        cells_in_order(&self.cells);
        let key = Arc::new(self.alloc, Place::Cell(cell))?;
        let value = Arc::new(self.alloc, Value::Number(number))?;
        self.cells.set(version, Arc::try_clone(&key)?, value)?;
        let changed = [key];
        self.graph.commit(&changed, version)?;
        Ok(true)
    }

    /// Finishes a key with this trace; whether the version is below the greatest.
    fn finish(
        &mut self,
        key: Place,
        version: u64,
        value: Value,
        trace: Arc<Trace<Tiny>>,
    ) -> Result<bool, NoMemory> {
        if version == u64::MAX {
            return Ok(false);
        }
        let key = Arc::new(self.alloc, key)?;
        let value = Arc::new(self.alloc, value)?;
        self.graph.finish(&self.cells, key, version, value, trace)?;
        Ok(true)
    }

    fn look(&self, key: Place, version: u64) -> Result<Seen, NoMemory> {
        let key = Arc::new(self.alloc, key)?;
        Ok(seen_of(self.graph.lookup(&key, version)))
    }

    fn see(&mut self, key: Place, version: u64) -> Result<bool, NoMemory> {
        let key = Arc::new(self.alloc, key)?;
        self.graph.seen(&key, version);
        Ok(true)
    }

    /// Carries out a call; whether it may be made, and a look-up answers what it has to.
    fn carry_out(&mut self, call: &Call) -> Result<bool, NoMemory> {
        match call {
            Call::Commit(version, cell, number) => self.commit(*version, *cell, *number),
            Call::Finish(key, version, value, dep, answer) => {
                let trace = asked_twice(self.alloc, *dep, *answer)?;
                self.finish(*key, *version, *value, trace)
            }
            Call::See(key, version) => self.see(*key, *version),
            Call::Look(key, version, seen) => Ok(self.look(*key, *version)? == *seen),
            Call::NoMatch(key, version) => {
                Ok(!matches!(self.look(*key, *version)?, Seen::Match(_, _)))
            }
        }
    }
}

/// Carries out calls on a new world; the number of the first that goes otherwise than it says.
fn first_other(alloc: Global, calls: &[Call]) -> Result<Option<usize>, NoMemory> {
    let mut world = World::new(alloc)?;
    for i in 0..calls.len() {
        if !world.carry_out(&calls[i])? {
            return Ok(Some(i));
        }
    }
    Ok(None)
}

/// Cell 1 is 5 from version 1 on.
const SET: Call = Call::Commit(1, 1, 5);

/// The key was finished at version 1, at which cell 1 is 5.
const FINISHED: Call = Call::Finish(KEY, 1, TEN, Place::Cell(1), 5);

/// A key that asks it was finished there.
const USED: Call = Call::Finish(USER, 1, TWELVE, KEY, 10);

const NEW: [Call; 4] = [
    SET,
    Call::Look(KEY, 1, Seen::New),
    FINISHED,
    Call::Look(KEY, 1, Seen::Match(TEN, 1)),
];

#[test]
fn a_key_is_new_until_it_is_finished(rt: HostRuntime) -> Result<(), Fail> {
    assert!(rt; first_other(rt.alloc(), &NEW)? == None);
    Ok(())
}

const CHANGED: [Call; 5] = [
    SET,
    FINISHED,
    Call::Commit(2, 1, 6),
    Call::Look(KEY, 2, Seen::Check(TEN, 1, 1)),
    Call::Look(KEY, 1, Seen::Match(TEN, 1)),
];

#[test]
fn a_changed_dependency_is_checked_and_an_older_version_still_matches(
    rt: HostRuntime,
) -> Result<(), Fail> {
    assert!(rt; first_other(rt.alloc(), &CHANGED)? == None);
    Ok(())
}

const CUT: [Call; 10] = [
    SET,
    FINISHED,
    USED,
    Call::Commit(2, 3, 5),
    Call::Look(KEY, 2, Seen::Match(TEN, 1)),
    Call::Look(USER, 2, Seen::Match(TWELVE, 1)),
    Call::Commit(3, 1, 6),
    Call::Look(KEY, 3, Seen::Check(TEN, 1, 1)),
    Call::Look(USER, 3, Seen::Check(TWELVE, 1, 1)),
    Call::Look(USER, 2, Seen::Match(TWELVE, 1)),
];

#[test]
fn a_commit_cuts_what_it_reaches_by_recorded_edges(rt: HostRuntime) -> Result<(), Fail> {
    assert!(rt; first_other(rt.alloc(), &CUT)? == None);
    Ok(())
}

const REPLACED: [Call; 10] = [
    SET,
    FINISHED,
    USED,
    Call::Finish(KEY, 1, TWELVE, Place::Cell(3), 0),
    Call::Commit(2, 1, 6),
    Call::Look(KEY, 2, Seen::Check(TWELVE, 1, 1)),
    Call::Look(USER, 2, Seen::Check(TWELVE, 1, 1)),
    // The edge from cell 1 has gone.
    Call::Finish(KEY, 2, TEN, Place::Cell(3), 0),
    Call::Commit(3, 1, 7),
    Call::Look(KEY, 3, Seen::Match(TEN, 2)),
];

#[test]
fn edges_outlive_a_replaced_entry_and_go_with_a_cut(rt: HostRuntime) -> Result<(), Fail> {
    assert!(rt; first_other(rt.alloc(), &REPLACED)? == None);
    Ok(())
}

const TRANSIENT: [Call; 4] = [
    SET,
    Call::Finish(KEY, 1, Value::Reading(1), Place::Cell(1), 5),
    Call::Commit(2, 1, 6),
    Call::Look(KEY, 2, Seen::Transient(1)),
];

#[test]
fn a_transient_value_is_computed_again(rt: HostRuntime) -> Result<(), Fail> {
    assert!(rt; first_other(rt.alloc(), &TRANSIENT)? == None);
    Ok(())
}

const KNOWN: [Call; 14] = [
    SET,
    FINISHED,
    Call::Commit(2, 3, 5),
    Call::Commit(3, 1, 6),
    // The key again, when nothing that it asks has changed; and a key that asks it.
    Call::Finish(KEY, 2, TEN, Place::Cell(1), 5),
    Call::Finish(USER, 2, TWELVE, KEY, 10),
    Call::NoMatch(KEY, 0),
    Call::NoMatch(USER, 0),
    Call::Look(KEY, 1, Seen::Match(TEN, 2)),
    Call::Look(USER, 1, Seen::Match(TWELVE, 2)),
    Call::Look(KEY, 2, Seen::Match(TEN, 2)),
    Call::Look(USER, 2, Seen::Match(TWELVE, 2)),
    Call::NoMatch(KEY, 3),
    Call::NoMatch(USER, 3),
];

#[test]
fn a_finish_marks_the_versions_that_its_dependency_knows(rt: HostRuntime) -> Result<(), Fail> {
    assert!(rt; first_other(rt.alloc(), &KNOWN)? == None);
    Ok(())
}

const AWAY: [Call; 6] = [
    SET,
    Call::Commit(2, 1, 6),
    // Cell 1 is 5 again.
    Call::Commit(3, 1, 5),
    Call::Finish(KEY, 3, TEN, Place::Cell(1), 5),
    Call::NoMatch(KEY, 1),
    Call::Look(KEY, 3, Seen::Match(TEN, 3)),
];

#[test]
fn a_finish_marks_no_version_beyond_a_change(rt: HostRuntime) -> Result<(), Fail> {
    assert!(rt; first_other(rt.alloc(), &AWAY)? == None);
    Ok(())
}

const OTHER: [Call; 6] = [
    SET,
    Call::Commit(2, 1, 6),
    Call::Finish(KEY, 2, TWELVE, Place::Cell(1), 6),
    // One that asked the key at the version before, at which the key's entry says nothing.
    Call::Finish(USER, 1, TWELVE, KEY, 10),
    Call::Look(USER, 1, Seen::Match(TWELVE, 1)),
    Call::NoMatch(USER, 2),
];

#[test]
fn an_entry_of_other_versions_adds_none(rt: HostRuntime) -> Result<(), Fail> {
    assert!(rt; first_other(rt.alloc(), &OTHER)? == None);
    Ok(())
}

const LATER: [Call; 7] = [
    SET,
    FINISHED,
    Call::Commit(2, 1, 6),
    Call::Finish(KEY, 2, TWELVE, Place::Cell(1), 6),
    Call::Finish(KEY, 1, TEN, Place::Cell(1), 5),
    Call::Look(KEY, 1, Seen::Check(TWELVE, 1, 2)),
    Call::Look(KEY, 2, Seen::Match(TWELVE, 2)),
];

#[test]
fn a_later_finish_replaces_and_an_earlier_one_does_not(rt: HostRuntime) -> Result<(), Fail> {
    assert!(rt; first_other(rt.alloc(), &LATER)? == None);
    Ok(())
}

const USED_LATER: [Call; 5] = [
    SET,
    FINISHED,
    Call::See(KEY, 4),
    Call::See(KEY, 2),
    Call::Look(KEY, 1, Seen::Match(TEN, 4)),
];

#[test]
fn a_match_that_was_seen_is_the_base_from_then_on(rt: HostRuntime) -> Result<(), Fail> {
    assert!(rt; first_other(rt.alloc(), &USED_LATER)? == None);
    Ok(())
}
