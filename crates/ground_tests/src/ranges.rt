//! Sets of versions, on examples.
use crate::common::{RangeRow, crosses, lists};
use std::alloc::Global;
use std::test::Fail;
use version_ranges::{NoMemory, Ranges};

/// Puts ranges into the set, one after another; those that are empty are left out.
fn insert(set: &mut Ranges, rows: &[RangeRow]) -> Result<(), NoMemory> {
    for (from, to) in rows {
        match *to {
            Some(end) if end <= *from => {}
            _ => set.insert(*from, *to)?,
        }
    }
    Ok(())
}

/// The set of these ranges, which are put in one after another.
fn set_of(alloc: Global, rows: &[RangeRow]) -> Result<Ranges, NoMemory> {
    let mut set = Ranges::new(alloc);
    insert(&mut set, rows)?;
    Ok(set)
}

/// What is put in, the set that it makes, and whether it is open.
type SetRow = (&'static [RangeRow], &'static [RangeRow], bool);

const SETS: [SetRow; 3] = [
    (&[], &[], false),
    (&[(1, Some(3)), (3, Some(5))], &[(1, Some(5))], false),
    (
        &[(1, Some(3)), (3, Some(5)), (7, None)],
        &[(1, Some(5)), (7, None)],
        true,
    ),
];

/// The number of the first set that is another one, or is open otherwise.
fn first_other_set(alloc: Global, rows: &[SetRow]) -> Result<Option<usize>, NoMemory> {
    for i in 0..rows.len() {
        let (put, want, open) = rows[i];
        let set = set_of(alloc, put)?;
        if !lists(&set, want) || set.is_open() != open {
            return Ok(Some(i));
        }
    }
    Ok(None)
}

/// The set of the tests: 1 to 4, and 7 on.
const SET: [RangeRow; 2] = [(1, Some(5)), (7, None)];

const TAIL: [RangeRow; 1] = [(3, None)];

/// How a set is made of two others.
#[derive(Clone, Copy)]
enum Made {
    Union,
    /// The first set, with the second one added to it.
    Added,
    Intersection,
    Narrowed,
    /// Narrowed to what the second set has round a version.
    Round(u64),
}

fn added(x: &Ranges, y: &Ranges) -> Result<Ranges, NoMemory> {
    let mut both = x.try_clone()?;
    both.add(y)?;
    Ok(both)
}

fn make(x: &Ranges, y: &Ranges, how: Made) -> Result<Ranges, NoMemory> {
    match how {
        Made::Union => x.union(y),
        Made::Added => added(x, y),
        Made::Intersection => x.intersect(y),
        Made::Narrowed => x.try_clone()?.narrowed(y),
        Made::Round(version) => x.try_clone()?.narrowed_round(y, version),
    }
}

/// Two sets, what is made of them, and the set that it is.
type MadeRow = (
    &'static [RangeRow],
    &'static [RangeRow],
    Made,
    &'static [RangeRow],
);

const MADE: [MadeRow; 9] = [
    (&SET, &[(5, Some(7))], Made::Union, &[(1, None)]),
    (
        &TAIL,
        &[(1, Some(2))],
        Made::Added,
        &[(1, Some(2)), (3, None)],
    ),
    (
        &[(5, Some(6))],
        &SET,
        Made::Added,
        &[(1, Some(6)), (7, None)],
    ),
    (&[(1, Some(5))], &TAIL, Made::Intersection, &[(3, Some(5))]),
    (&[(1, Some(5))], &TAIL, Made::Narrowed, &[(3, Some(5))]),
    (&SET, &TAIL, Made::Narrowed, &[(3, Some(5)), (7, None)]),
    (&TAIL, &SET, Made::Round(4), &[(3, Some(5))]),
    (&TAIL, &SET, Made::Round(5), &[]),
    (&SET, &SET, Made::Round(7), &[(7, None)]),
];

/// The number of the first row by which another set is made.
fn first_other_made(alloc: Global, rows: &[MadeRow]) -> Result<Option<usize>, NoMemory> {
    for i in 0..rows.len() {
        let (first, second, how, want) = rows[i];
        let x = set_of(alloc, first)?;
        let y = set_of(alloc, second)?;
        if !lists(&make(&x, &y, how)?, want) {
            return Ok(Some(i));
        }
    }
    Ok(None)
}

/// Whether all versions from 1 on are cut below 4, and then below 1.
fn is_cut(alloc: Global) -> Result<bool, NoMemory> {
    let mut all = set_of(alloc, &SET)?.union(&set_of(alloc, &[(5, Some(7))])?)?;
    all.close_at(4);
    let below_four = lists(&all, &[(1, Some(4))]);
    all.close_at(1);
    Ok(below_four && lists(&all, &[]))
}

/// Whether a copy stays as it was when a range is put into the set.
fn copy_stays(alloc: Global) -> Result<bool, NoMemory> {
    let mut set = set_of(alloc, &[(1, Some(3)), (3, Some(5))])?;
    let copy = set.try_clone()?;
    set.insert(7, None)?;
    Ok(lists(&copy, &[(1, Some(5))]) && lists(&set, &SET))
}

/// Versions, and whether they are in the set of the tests.
const MEMBERS: [(u64, bool); 7] = [
    (0, false),
    (1, true),
    (4, true),
    (5, false),
    (6, false),
    (7, true),
    (u64::MAX, true),
];

/// Whether the set has just those of these versions that are said to be in it.
fn has_members(set: &Ranges, rows: &[(u64, bool)]) -> bool {
    for (version, has) in rows {
        if set.contains(*version) != *has {
            return false;
        }
    }
    true
}

/// Whether the set of the tests has its members. It may go to another thread.
fn has_its_members(alloc: Global) -> Result<bool, NoMemory> {
    let set = set_of(alloc, &SET)?;
    crosses(&set);
    Ok(has_members(&set, &MEMBERS))
}

#[test]
fn ranges_join_where_they_touch_and_are_cut_below_a_version(rt: HostRuntime) -> Result<(), Fail> {
    let alloc = rt.alloc();
    assert!(rt; first_other_set(alloc, &SETS)? == None);
    assert!(rt; first_other_made(alloc, &MADE)? == None);
    assert!(rt; copy_stays(alloc)? && is_cut(alloc)?);
    assert!(rt; has_its_members(alloc)?);
    assert!(rt; has_members(&Ranges::new(alloc), &[(0, false)]));
    Ok(())
}

fn is_all(alloc: Global) -> Result<bool, NoMemory> {
    Ok(lists(&Ranges::all(alloc)?, &[(0, None)]))
}

/// Whether the set of the greatest version alone is open.
fn is_last(alloc: Global) -> Result<bool, NoMemory> {
    Ok(lists(&Ranges::one(alloc, u64::MAX)?, &[(u64::MAX, None)]))
}

#[test]
fn a_range_is_put_before_others(rt: HostRuntime) -> Result<(), Fail> {
    let alloc = rt.alloc();
    let mut set = Ranges::one(alloc, 9)?;
    insert(&mut set, &[(2, Some(4)), (5, Some(6))])?;
    assert!(rt; lists(&set, &[(2, Some(4)), (5, Some(6)), (9, Some(10))]));
    insert(&mut set, &[(3, Some(9))])?;
    assert!(rt; lists(&set, &[(2, Some(10))]));
    assert!(rt; is_all(alloc)? && is_last(alloc)?);
    Ok(())
}
