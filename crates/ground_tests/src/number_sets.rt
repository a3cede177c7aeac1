//! A set of numbers: each call, over the change to a hash set and back to no number.
use crate::common::crosses;
use dice_key::NoMemory;
use small_set::NumberSet;
use std::alloc::Global;
use std::test::Fail;

/// One call of a set.
#[derive(Clone, Copy)]
enum Call {
    Insert(u64),
    SwapRemove(u64),
    Reserve,
}

/// A call, whether the number was new or there, and the numbers after it.
type Row = (Call, bool, &'static [u64]);

const ROWS: [Row; 13] = [
    (Call::SwapRemove(3), false, &[]),
    (Call::Insert(3), true, &[3]),
    (Call::Insert(3), false, &[3]),
    (Call::SwapRemove(4), false, &[3]),
    (Call::SwapRemove(3), true, &[]),
    (Call::Insert(5), true, &[5]),
    (Call::Insert(4), true, &[5, 4]),
    (Call::Insert(5), false, &[5, 4]),
    (Call::Reserve, true, &[5, 4]),
    (Call::Insert(6), true, &[5, 4, 6]),
    (Call::SwapRemove(5), true, &[6, 4]),
    (Call::SwapRemove(6), true, &[4]),
    (Call::SwapRemove(4), true, &[]),
];

/// The same with room made before any number, and beside one.
const RESERVED: [Row; 5] = [
    (Call::Reserve, true, &[]),
    (Call::Insert(1), true, &[1]),
    (Call::Reserve, true, &[1]),
    (Call::SwapRemove(2), false, &[1]),
    (Call::Insert(0), true, &[1, 0]),
];

/// What a call tells.
fn run(set: &mut NumberSet, call: Call) -> Result<bool, NoMemory> {
    match call {
        Call::Insert(number) => Ok(set.insert(number)?),
        Call::SwapRemove(number) => Ok(set.swap_remove(number)),
        Call::Reserve => {
            set.reserve()?;
            Ok(true)
        }
    }
}

/// The number of the first row that says otherwise, from a new set on.
fn first_other(alloc: Global, rows: &[Row]) -> Result<Option<usize>, NoMemory> {
    let mut set = NumberSet::new(alloc);
    for i in 0..rows.len() {
        let (call, told, numbers) = rows[i];
        if run(&mut set, call)? != told
            || *set.as_slice() != *numbers
            || set.is_empty() != numbers.is_empty()
        {
            return Ok(Some(i));
        }
    }
    Ok(None)
}

#[test]
fn a_set_of_numbers_has_what_was_put_and_not_taken(rt: HostRuntime) -> Result<(), Fail> {
    let alloc = rt.alloc();
    crosses(&NumberSet::new(alloc));
    assert!(rt; first_other(alloc, &ROWS)? == None);
    assert!(rt; first_other(alloc, &RESERVED)? == None);
    Ok(())
}
