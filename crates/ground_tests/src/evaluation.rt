//! Tests on the example universe.
ghost use Rattle.std.specs.Prelude.{◌≢◌, IfOk};
ghost use Rattle.dice_model.specs.Log.{IsCommit, pairs_of};
ghost use Rattle.tiny_universe.specs.Tiny.{tiny};

use dice_key::NoMemory;
use dice_model::{
    Commits, inputs_are_settled, plain, same_answers_give_the_value, traces_are_settled,
    values_are_settled,
};
use std::alloc::Global;
use std::sync::Arc;
use std::test::Fail;
use tiny_universe::{Place, Tiny, Value};

/// A commit that sets one cell.
fn one_cell(
    alloc: Global,
    cell: u32,
    number: u64,
) -> Result<Vec<(Arc<Place>, Arc<Value>)>, NoMemory>
    ensures { IfOk result (λ c. IsCommit tiny (pairs_of c.items)) }
{
    let mut changes = Vec::new(alloc);
    changes.push((
        Arc::new(alloc, Place::Cell(cell))?,
        Arc::new(alloc, Value::Number(number))?,
    ))?;
    Ok(changes)
}

/// A commit that sets two cells.
fn two_cells(
    alloc: Global,
    first: (u32, u64),
    second: (u32, u64),
) -> Result<Vec<(Arc<Place>, Arc<Value>)>, NoMemory>
    requires { first.0 ≢ second.0 }
    ensures { IfOk result (λ c. IsCommit tiny (pairs_of c.items)) }
{
    let mut changes = Vec::new(alloc);
    changes.push((
        Arc::new(alloc, Place::Cell(first.0))?,
        Arc::new(alloc, Value::Number(first.1))?,
    ))?;
    changes.push((
        Arc::new(alloc, Place::Cell(second.0))?,
        Arc::new(alloc, Value::Number(second.1))?,
    ))?;
    Ok(changes)
}

/// Version 1: cell 1 names cell 2, which holds 40. Version 2: cell 2 holds 7.
fn two_commits(alloc: Global) -> Result<Commits<Tiny>, NoMemory> {
    let mut commits = Commits::new(alloc);
    commits.push(two_cells(alloc, (1, 2), (2, 40))?)?;
    commits.push(one_cell(alloc, 2, 7)?)?;
    Ok(commits)
}

/// A key, a version, how deep the evaluation goes, and the number or reading that it comes to.
type Row = (Place, u64, u32, Option<Value>);

const ROWS: [Row; 23] = [
    // an injected key needs depth 1; it has the newest value that is set by the version, and is 0
    // before
    (Place::Cell(2), 2, 0, None),
    (Place::Cell(2), 0, 1, Some(Value::Number(0))),
    (Place::Cell(2), 1, 1, Some(Value::Number(40))),
    (Place::Cell(2), 2, 1, Some(Value::Number(7))),
    (Place::Cell(2), 9, 1, Some(Value::Number(7))),
    (Place::Cell(1), 2, 4, Some(Value::Number(2))),
    (Place::Cell(3), 2, 1, Some(Value::Number(0))),
    // two batches, of which the second is what the first leads to
    (Place::Follow(1), 2, 1, None),
    (Place::Follow(1), 0, 2, Some(Value::Number(0))),
    (Place::Follow(1), 1, 2, Some(Value::Number(40))),
    (Place::Follow(1), 2, 2, Some(Value::Number(7))),
    // a projection is one deeper than its base
    (Place::Parity(1), 2, 2, None),
    (Place::Parity(1), 1, 3, Some(Value::Number(0))),
    (Place::Parity(1), 2, 3, Some(Value::Number(1))),
    // one batch of two keys, and of one key twice
    (Place::Sum(1, 2), 1, 1, None),
    (Place::Sum(1, 2), 1, 2, Some(Value::Number(42))),
    (Place::Sum(2, 1), 2, 2, Some(Value::Number(9))),
    (Place::Sum(2, 2), 2, 2, Some(Value::Number(14))),
    // a transient value, of no batch
    (Place::Clock, 1, 0, None),
    (Place::Clock, 1, 1, Some(Value::Reading(1))),
    (Place::Clock, 2, 50, Some(Value::Reading(2))),
    // two keys that ask each other
    (Place::Ring(true), 1, 50, None),
    (Place::Ring(false), 2, 50, None),
];

/// Whether the evaluation comes to what the row says.
fn agrees(
    alloc: Global,
    universe: &Tiny,
    commits: &Commits<Tiny>,
    row: &Row,
) -> Result<bool, NoMemory> {
    let key = Arc::new(alloc, row.0)?;
    match plain(alloc, universe, commits, row.1, &key, row.2)? {
        Some(value) => Ok(row.3 == Some(*value)),
        None => Ok(row.3.is_none()),
    }
}

/// The number of the first row that says otherwise.
fn first_other(alloc: Global, rows: &[Row]) -> Result<Option<usize>, NoMemory> {
    let universe = Tiny::new(alloc)?;
    let commits = two_commits(alloc)?;
    for i in 0..rows.len() {
        if !agrees(alloc, &universe, &commits, &rows[i])? {
            return Ok(Some(i));
        }
    }
    Ok(None)
}

#[test]
fn evaluation_from_nothing(rt: HostRuntime) -> Result<(), Fail> {
    assert!(rt; first_other(rt.alloc(), &ROWS)? == None);
    Ok(())
}

/// Whether cell 2 holds this number at this version.
fn holds(
    alloc: Global,
    commits: &Commits<Tiny>,
    version: u64,
    number: u64,
) -> Result<bool, NoMemory> {
    let universe = Tiny::new(alloc)?;
    Ok(*commits.input(&universe, version, &Place::Cell(2))? == Value::Number(number))
}

/// The number of the first version at which cell 2 holds another number.
fn first_other_input(
    alloc: Global,
    commits: &Commits<Tiny>,
    rows: &[(u64, u64)],
) -> Result<Option<usize>, NoMemory> {
    for i in 0..rows.len() {
        let (version, number) = rows[i];
        if !holds(alloc, commits, version, number)? {
            return Ok(Some(i));
        }
    }
    Ok(None)
}

/// Whether a log of two commits has two, and the numbers of cell 2 that they set.
fn log_is_kept(alloc: Global) -> Result<bool, NoMemory> {
    let commits = two_commits(alloc)?;
    let rows = [(0, 0), (1, 40), (2, 7), (3, 7)];
    Ok(commits.len() == 2 && first_other_input(alloc, &commits, &rows)? == None)
}

#[test]
fn the_log_is_what_was_committed(rt: HostRuntime) -> Result<(), Fail> {
    assert!(rt; Commits::<Tiny>::new(rt.alloc()).len() == 0);
    assert!(rt; log_is_kept(rt.alloc())?);
    inputs_are_settled::<Tiny>();
    values_are_settled::<Tiny>();
    traces_are_settled::<Tiny>();
    same_answers_give_the_value::<Tiny>();
    Ok(())
}
