//! The core on the example universe: calls one after another, and what stands after each.
use crate::bench::{Bench, Call};
use crate::tiny::Act::{Do, Set};
use dice_core::{CommitRefusal, Core, Polled};
use dice_key::{KeyRef, NoMemory, ValueRef};
use std::alloc::Global;
use std::sync::Arc;
use std::test::Fail;
use tiny_universe::{Place, Tiny, Value};

/// What a key has come to; of a cycle the number of its keys.
#[derive(Clone, Copy, PartialEq)]
enum Seen {
    Number(u64),
    Reading(u64),
    Cycle(usize),
    Lost,
    Pending,
    Absent,
}

/// What is done on a core: a number is committed for a key, or another call is made.
#[derive(Clone, Copy)]
enum Act {
    Set(Place, u64),
    Do(Call),
}

/// What is done; then a version and a key, which an ask is for, and what the key has come to there;
/// and the tasks that are ready and out.
type Row = (Act, u64, Place, Seen, u64, u64);

const CELL: Place = Place::Cell(1);

const SUM: Place = Place::Sum(1, 2);

const PARITY: Place = Place::Parity(1);

const RING: Place = Place::Ring(false);

const ROWS: [Row; 36] = [
    // A value that is not there yet, and that is.
    (Set(CELL, 2), 1, CELL, Seen::Absent, 0, 0),
    (Do(Call::Open), 1, CELL, Seen::Number(2), 0, 0),
    (Do(Call::Ask), 1, SUM, Seen::Pending, 1, 0),
    (Do(Call::Work), 1, SUM, Seen::Number(2), 0, 0),
    // A cycle, a projection, and a value that hangs on the version.
    (Do(Call::Ask), 1, RING, Seen::Pending, 1, 0),
    (Do(Call::Work), 1, RING, Seen::Cycle(2), 0, 0),
    (Do(Call::Ask), 1, PARITY, Seen::Pending, 1, 0),
    (Do(Call::Work), 1, PARITY, Seen::Number(0), 0, 0),
    (Do(Call::Ask), 1, Place::Clock, Seen::Pending, 1, 0),
    (Do(Call::Work), 1, Place::Clock, Seen::Reading(1), 0, 0),
    // The same value again is no version; another cell is one, and the sum is kept.
    (Set(CELL, 2), 2, SUM, Seen::Absent, 0, 0),
    (Set(Place::Cell(3), 4), 1, SUM, Seen::Number(2), 0, 0),
    (Do(Call::Close), 1, SUM, Seen::Absent, 0, 0),
    (Do(Call::Open), 2, CELL, Seen::Number(2), 0, 0),
    (Do(Call::Ask), 2, SUM, Seen::Number(2), 0, 0),
    (Do(Call::Close), 2, SUM, Seen::Absent, 0, 0),
    // What stands on a cell that changed is checked anew.
    (Set(CELL, 6), 3, SUM, Seen::Absent, 0, 0),
    (Do(Call::Open), 3, CELL, Seen::Number(6), 0, 0),
    (Do(Call::Ask), 3, SUM, Seen::Pending, 1, 0),
    (Do(Call::Work), 3, SUM, Seen::Number(6), 0, 0),
    (Do(Call::Close), 3, SUM, Seen::Absent, 0, 0),
    // A job that goes out, comes back, goes out and is given up; the key's task is made anew.
    (Do(Call::Open), 3, PARITY, Seen::Absent, 0, 0),
    (Do(Call::Ask), 3, PARITY, Seen::Pending, 1, 0),
    (Do(Call::Take), 3, PARITY, Seen::Pending, 0, 1),
    (Do(Call::Back), 3, PARITY, Seen::Pending, 1, 0),
    (Do(Call::Take), 3, PARITY, Seen::Pending, 0, 1),
    (Do(Call::Fail), 3, PARITY, Seen::Lost, 0, 0),
    (Do(Call::Ask), 3, PARITY, Seen::Pending, 1, 0),
    // A step of an ask that was left is stale.
    (Do(Call::Take), 3, PARITY, Seen::Pending, 0, 1),
    (Do(Call::Leave), 3, PARITY, Seen::Pending, 0, 1),
    (Do(Call::Close), 3, PARITY, Seen::Absent, 0, 0),
    (Do(Call::Advance), 3, PARITY, Seen::Absent, 0, 0),
    (Do(Call::Give), 3, PARITY, Seen::Absent, 0, 0),
    (Do(Call::Open), 3, PARITY, Seen::Absent, 0, 0),
    (Do(Call::Ask), 3, PARITY, Seen::Pending, 1, 0),
    (Do(Call::Work), 3, PARITY, Seen::Number(0), 0, 0),
];

fn seen_of(polled: Polled<'_, Tiny>) -> Seen {
    match polled {
        Polled::Value(value) => match **value {
            Value::Number(number) => Seen::Number(number),
            Value::Reading(version) => Seen::Reading(version),
        },
        Polled::Cycle(path) => Seen::Cycle(path.keys().len()),
        Polled::Lost => Seen::Lost,
        Polled::Pending => Seen::Pending,
        Polled::Absent => Seen::Absent,
    }
}

type Change = (KeyRef<Tiny>, ValueRef<Tiny>);

fn change(alloc: Global, key: Place, number: u64) -> Result<Change, NoMemory> {
    let key = Arc::new(alloc, key)?;
    Ok((key, Arc::new(alloc, Value::Number(number))?))
}

/// Does this; an ask is for this key.
fn act_on(
    alloc: Global,
    bench: &mut Bench<Tiny>,
    act: Act,
    key: KeyRef<Tiny>,
) -> Result<(), NoMemory> {
    match act {
        Set(cell, number) => {
            let changes = [change(alloc, cell, number)?];
            bench.commit(&changes)?;
        }
        Do(call) => {
            bench.carry_out(call, key)?;
        }
    }
    Ok(())
}

/// Does what a row says; whether all stands then as the row says.
fn agrees(alloc: Global, bench: &mut Bench<Tiny>, row: &Row) -> Result<bool, NoMemory> {
    let (act, version, key, seen, ready, out) = *row;
    let key = Arc::new(alloc, key)?;
    act_on(alloc, bench, act, Arc::try_clone(&key)?)?;
    let left = seen_of(bench.core.poll(version, &key));
    Ok(left == seen && bench.counts() == (ready, out))
}

fn new_bench(alloc: Global) -> Result<Bench<Tiny>, NoMemory> {
    let universe = Arc::new(alloc, Tiny::new(alloc)?)?;
    Bench::new(alloc, universe)
}

/// Goes through these rows on a new core; the number of the first after which something stands
/// otherwise than it says.
fn first_other(alloc: Global, rows: &[Row]) -> Result<Option<usize>, NoMemory> {
    let mut bench = new_bench(alloc)?;
    for i in 0..rows.len() {
        if !agrees(alloc, &mut bench, &rows[i])? {
            return Ok(Some(i));
        }
    }
    Ok(None)
}

#[test]
fn calls_one_after_another(rt: HostRuntime) -> Result<(), Fail> {
    assert!(rt; first_other(rt.alloc(), &ROWS)? == None);
    Ok(())
}

fn changes(alloc: Global, pairs: &[(Place, u64)]) -> Result<Vec<Change>, NoMemory> {
    let mut changes = Vec::new(alloc);
    for (key, number) in pairs {
        changes.push(change(alloc, *key, *number)?)?;
    }
    Ok(changes)
}

/// The key for which a commit is refused, and whether it stands there twice.
fn refused(core: &mut Core<Tiny>, changes: &[Change]) -> Option<(Place, bool)> {
    match core.commit(0, changes) {
        Err(CommitRefusal::NotInjected(key)) => Some((**key, false)),
        Err(CommitRefusal::Twice(key)) => Some((**key, true)),
        _ => None,
    }
}

/// Changes, and the key for which they are refused, and whether it stands there twice.
type Fault = ([(Place, u64); 3], (Place, bool));

const FAULTS: [Fault; 2] = [
    ([(CELL, 1), (SUM, 1), (CELL, 2)], (SUM, false)),
    ([(CELL, 1), (CELL, 2), (SUM, 1)], (CELL, true)),
];

/// Whether the core refuses the changes of each row as it says.
fn refuses(alloc: Global, core: &mut Core<Tiny>) -> Result<bool, NoMemory> {
    for (pairs, fault) in &FAULTS {
        let changes = changes(alloc, pairs)?;
        if refused(core, &changes) != Some(*fault) {
            return Ok(false);
        }
    }
    Ok(true)
}

#[test]
fn the_first_fault_of_a_commit_is_named(rt: HostRuntime) -> Result<(), Fail> {
    let mut bench = new_bench(rt.alloc())?;
    assert!(rt; refuses(rt.alloc(), &mut bench.core)?);
    assert!(rt; bench.core.newest() == 0 && bench.core.journal().len() == 0);
    Ok(())
}
