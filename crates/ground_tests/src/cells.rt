//! Cells of the example universe.
use crate::common::{RangeRow, crosses, lists};
use dice_key::NoMemory;
use injected::{Cells, cells_in_order};
use std::alloc::Global;
use std::sync::Arc;
use std::test::Fail;
use tiny_universe::{Place, Tiny, Value};

/// Sets the value of a key at a version above all that were set; whether the version was above
/// them.
fn put_one(
    alloc: Global,
    cells: &mut Cells<Tiny>,
    key: &Arc<Place>,
    version: u64,
    value: u64,
) -> Result<bool, NoMemory> {
    if version <= cells.last() {
        return Ok(false);
    }
    cells_in_order(cells);
    let value = Arc::new(alloc, Value::Number(value))?;
    cells.set(version, Arc::try_clone(key)?, value)?;
    Ok(true)
}

/// The same at each of these versions.
fn put(
    alloc: Global,
    cells: &mut Cells<Tiny>,
    key: &Arc<Place>,
    rows: &[(u64, u64)],
) -> Result<bool, NoMemory> {
    for (version, value) in rows {
        if !put_one(alloc, cells, key, *version, *value)? {
            return Ok(false);
        }
    }
    Ok(true)
}

/// A version, the value there, the versions that have this value, and those of them round it
/// without another value between.
type Row = (u64, u64, &'static [RangeRow], RangeRow);

/// The number of the first row that says otherwise.
fn first_other(
    cells: &Cells<Tiny>,
    key: &Arc<Place>,
    rows: &[Row],
) -> Result<Option<usize>, NoMemory> {
    for i in 0..rows.len() {
        let (version, value, ranges, round) = rows[i];
        let found = cells.ranges_of(version, key)?;
        let next = cells.range_round(version, key)?;
        if **cells.at(version, key) != Value::Number(value)
            || !lists(&found, ranges)
            || !lists(&next, &[round])
        {
            return Ok(Some(i));
        }
    }
    Ok(None)
}

const ROWS: [Row; 10] = [
    (0, 0, &[(0, Some(1)), (7, Some(9))], (0, Some(1))),
    (1, 1, &[(1, Some(3)), (6, Some(7))], (1, Some(3))),
    (2, 1, &[(1, Some(3)), (6, Some(7))], (1, Some(3))),
    (3, 2, &[(3, Some(4)), (9, None)], (3, Some(4))),
    (5, 3, &[(4, Some(6))], (4, Some(6))),
    (6, 1, &[(1, Some(3)), (6, Some(7))], (6, Some(7))),
    (7, 0, &[(0, Some(1)), (7, Some(9))], (7, Some(9))),
    (8, 0, &[(0, Some(1)), (7, Some(9))], (7, Some(9))),
    (9, 2, &[(3, Some(4)), (9, None)], (9, None)),
    (12, 2, &[(3, Some(4)), (9, None)], (9, None)),
];

/// The rows of a key that is never set.
const UNSET: [Row; 2] = [
    (5, 0, &[(0, None)], (0, None)),
    (9, 0, &[(0, None)], (0, None)),
];

/// The rows of a key that is set once.
const ONCE: [Row; 3] = [
    (1, 0, &[(0, Some(2))], (0, Some(2))),
    (2, 5, &[(2, None)], (2, None)),
    (9, 5, &[(2, None)], (2, None)),
];

/// The rows of a key that is set once, to the value that it has without a set.
const ONCE_AS_UNSET: [Row; 2] = [
    (1, 0, &[(0, None)], (0, None)),
    (4, 0, &[(0, None)], (0, None)),
];

/// Sets the key's values; whether each version was above those before it. Room is made for the key
/// in between.
fn set_all(alloc: Global, cells: &mut Cells<Tiny>, key: &Arc<Place>) -> Result<bool, NoMemory> {
    let first = put(alloc, cells, key, &[(1, 1), (3, 2), (4, 3), (6, 1), (7, 0)])?;
    cells.reserve(Arc::try_clone(key)?)?;
    Ok(first && put(alloc, cells, key, &[(9, 2), (10, 2)])?)
}

/// Whether a key that is never set has the rows of such a key.
fn is_unset(alloc: Global, cells: &Cells<Tiny>) -> Result<bool, NoMemory> {
    let key = Arc::new(alloc, Place::Cell(8))?;
    Ok(first_other(cells, &key, &UNSET)? == None)
}

/// Whether the key has the values that were set, and the newest is the last.
fn are_as_set(cells: &Cells<Tiny>, key: &Arc<Place>) -> Result<bool, NoMemory> {
    Ok(
        first_other(cells, key, &ROWS)? == None
            && **cells.newest(key) == Value::Number(2)
            && cells.last() == 10,
    )
}

/// Whether a key that is set once, to this value, has these rows.
fn has_one_set(alloc: Global, value: u64, rows: &[Row]) -> Result<bool, NoMemory> {
    let mut cells = no_cells(alloc)?;
    let key = Arc::new(alloc, Place::Cell(6))?;
    Ok(
        put(alloc, &mut cells, &key, &[(2, value)])?
            && first_other(&cells, &key, rows)? == None
            && **cells.newest(&key) == Value::Number(value),
    )
}

fn no_cells(alloc: Global) -> Result<Cells<Tiny>, NoMemory> {
    let universe = Arc::new(alloc, Tiny::new(alloc)?)?;
    Ok(Cells::new(alloc, universe))
}

#[test]
fn the_last_set_at_or_below_a_version_has_the_value(rt: HostRuntime) -> Result<(), Fail> {
    let alloc = rt.alloc();
    let mut cells = no_cells(alloc)?;
    crosses(&cells);
    assert!(rt; cells.last() == 0);
    let key = Arc::new(alloc, Place::Cell(7))?;
    assert!(rt; set_all(alloc, &mut cells, &key)?);
    assert!(rt; are_as_set(&cells, &key)?);
    assert!(rt; is_unset(alloc, &cells)?);
    Ok(())
}

#[test]
fn a_key_that_is_set_once_has_two_values(rt: HostRuntime) -> Result<(), Fail> {
    let alloc = rt.alloc();
    assert!(rt; has_one_set(alloc, 5, &ONCE)?);
    assert!(rt; has_one_set(alloc, 0, &ONCE_AS_UNSET)?);
    Ok(())
}
