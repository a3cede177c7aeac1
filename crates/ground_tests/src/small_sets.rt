//! Small sets, below and above the number of members that stand in a list.
use crate::common::crosses;
use hash_seed::Seed;
use small_set::SmallSet;
use std::alloc::{AllocError, Global};
use std::test::Fail;

/// What is put in, one after another, and the members that it makes.
type SetRow = (&'static [u8], &'static [u8]);

const SETS: [SetRow; 6] = [
    (&[], &[]),
    (&[7, 7], &[7]),
    (&[7, 3, 7, 3], &[7, 3]),
    (&[1, 2, 3, 4, 5, 6, 7, 8, 8, 1], &[1, 2, 3, 4, 5, 6, 7, 8]),
    (
        &[9, 8, 7, 6, 5, 4, 3, 2, 1, 9, 1],
        &[9, 8, 7, 6, 5, 4, 3, 2, 1],
    ),
    (
        &[
            1, 2, 3, 4, 5, 6, 7, 8, 9, 10, 1, 20, 19, 18, 17, 16, 15, 14, 13, 12, 11, 20, 1,
        ],
        &[
            1, 2, 3, 4, 5, 6, 7, 8, 9, 10, 20, 19, 18, 17, 16, 15, 14, 13, 12, 11,
        ],
    ),
];

/// A value that no row puts in.
const ABSENT: u8 = 100;

/// Puts these in, one after another; whether each was told as new exactly if it was.
fn puts_in(set: &mut SmallSet<u8>, values: &[u8]) -> Result<bool, AllocError> {
    for value in values {
        let was = set.contains(value);
        let added = set.insert(*value)?;
        if added == was || !set.contains(value) {
            return Ok(false);
        }
    }
    Ok(true)
}

/// Whether the set has just these members, in this order.
fn has(set: &SmallSet<u8>, want: &[u8]) -> bool {
    *set.as_slice() == *want
        && set.len() == want.len()
        && set.is_empty() == want.is_empty()
        && !set.contains(&ABSENT)
}

/// The number of the first row that makes another set, or one that is not filled anew after it
/// was emptied.
fn first_other_set(alloc: Global, rows: &[SetRow]) -> Result<Option<usize>, AllocError> {
    for i in 0..rows.len() {
        let (put, want) = rows[i];
        let mut set = SmallSet::new(alloc, Seed::fixed());
        let filled = puts_in(&mut set, put)? && has(&set, want);
        set.clear();
        let emptied = has(&set, &[]);
        if !filled || !emptied || !puts_in(&mut set, put)? || !has(&set, want) {
            return Ok(Some(i));
        }
    }
    Ok(None)
}

#[test]
fn a_set_has_each_value_once(rt: HostRuntime) -> Result<(), Fail> {
    let alloc = rt.alloc();
    crosses(&SmallSet::<u8>::new(alloc, Seed::fixed()));
    assert!(rt; first_other_set(alloc, &SETS)? == None);
    Ok(())
}
