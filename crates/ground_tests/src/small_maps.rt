//! A small map: each call, over the changes to two entries, to a hash map and back to no entry.
use dice_key::NoMemory;
use small_map::SmallMap;
use std::alloc::Global;
use std::sync::Arc;
use std::test::Fail;

/// One call of a map.
#[derive(Clone, Copy)]
enum Call {
    Insert(usize, u64),
    SwapRemove(usize),
    Pop,
    Reserve(usize),
}

/// A call, the value that it gives, and the entries after it, by rising numbers.
type Row = (Call, Option<u64>, &'static [(usize, u64)]);

const ROWS: [Row; 14] = [
    (Call::Pop, None, &[]),
    (Call::SwapRemove(3), None, &[]),
    (Call::Insert(3, 30), None, &[(3, 30)]),
    (Call::Insert(3, 31), Some(30), &[(3, 31)]),
    (Call::SwapRemove(4), None, &[(3, 31)]),
    (Call::SwapRemove(3), Some(31), &[]),
    (Call::Insert(5, 50), None, &[(5, 50)]),
    (Call::Insert(4, 40), None, &[(4, 40), (5, 50)]),
    (Call::Insert(5, 51), Some(50), &[(4, 40), (5, 51)]),
    (Call::Reserve(9), None, &[(4, 40), (5, 51)]),
    (Call::Insert(6, 60), None, &[(4, 40), (5, 51), (6, 60)]),
    (Call::SwapRemove(4), Some(40), &[(5, 51), (6, 60)]),
    (Call::SwapRemove(6), Some(60), &[(5, 51)]),
    (Call::Pop, Some(51), &[]),
];

/// The same with room made beside a single entry, and before any.
const RESERVED: [Row; 6] = [
    (Call::Reserve(2), None, &[]),
    (Call::Insert(1, 10), None, &[(1, 10)]),
    (Call::Pop, Some(10), &[]),
    (Call::Insert(2, 20), None, &[(2, 20)]),
    (Call::Reserve(1), None, &[(2, 20)]),
    (Call::Insert(0, 0), None, &[(0, 0), (2, 20)]),
];

/// A third entry, in no room made before.
const THIRD: [Row; 6] = [
    (Call::Insert(1, 10), None, &[(1, 10)]),
    (Call::Insert(2, 20), None, &[(1, 10), (2, 20)]),
    (Call::Insert(1, 11), Some(10), &[(1, 11), (2, 20)]),
    (Call::SwapRemove(3), None, &[(1, 11), (2, 20)]),
    (Call::Insert(3, 30), None, &[(1, 11), (2, 20), (3, 30)]),
    (Call::SwapRemove(1), Some(11), &[(2, 20), (3, 30)]),
];

/// The value that a call gives.
fn run(alloc: Global, map: &mut SmallMap<u64>, call: Call) -> Result<Option<u64>, NoMemory> {
    let given = match call {
        Call::Insert(number, value) => map.insert(number, Arc::new(alloc, value)?)?,
        Call::SwapRemove(number) => map.swap_remove(number),
        Call::Pop => match map.pop() {
            Some((_, value)) => Some(value),
            None => None,
        },
        Call::Reserve(additional) => {
            map.reserve(additional)?;
            None
        }
    };
    match given {
        Some(value) => Ok(Some(*value)),
        None => Ok(None),
    }
}

/// Whether the map has this number with this value.
fn has(map: &SmallMap<u64>, number: usize, value: u64) -> bool {
    let values = map.values();
    for (i, there) in map.numbers().iter().enumerate() {
        if *there == number {
            return i < values.len() && *values[i] == value;
        }
    }
    false
}

/// Whether the map has exactly these entries.
fn is_of(map: &SmallMap<u64>, entries: &[(usize, u64)]) -> bool {
    for (number, value) in entries {
        if !has(map, *number, *value) {
            return false;
        }
    }
    map.len() == entries.len() && map.is_empty() == entries.is_empty()
}

/// The number of the first row that says otherwise, from a new map on.
fn first_other(alloc: Global, rows: &[Row]) -> Result<Option<usize>, NoMemory> {
    let mut map = SmallMap::new(alloc);
    for i in 0..rows.len() {
        let (call, given, entries) = rows[i];
        if run(alloc, &mut map, call)? != given || !is_of(&map, entries) {
            return Ok(Some(i));
        }
    }
    Ok(None)
}

#[test]
fn a_small_map_has_what_was_put_and_not_taken(rt: HostRuntime) -> Result<(), Fail> {
    let alloc = rt.alloc();
    assert!(rt; first_other(alloc, &ROWS)? == None);
    assert!(rt; first_other(alloc, &RESERVED)? == None);
    assert!(rt; first_other(alloc, &THIRD)? == None);
    Ok(())
}
