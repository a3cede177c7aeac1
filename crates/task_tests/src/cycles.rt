//! Cycles among waits, with numbers for keys.
use cycle_guard::{count_above, would_close};
use dice_key::{NoMemory, Seed};
use std::alloc::Global;
use std::sync::Arc;
use std::test::Fail;
use task_share::{Asker, Table};

/// Lets the task of one key wait for another.
fn wait(alloc: Global, table: &mut Table<u32, u64>, asker: u32, key: u32) -> Result<(), NoMemory> {
    let key = Arc::new(alloc, key)?;
    let asker = Asker::Task(Arc::new(alloc, asker)?);
    table.join(&key, asker)
}

/// A table in which these tasks wait for these keys.
fn waiting(alloc: Global, waits: &[(u32, u32)]) -> Result<Table<u32, u64>, NoMemory> {
    let mut table = Table::new(alloc, Seed::fixed());
    for (asker, key) in waits {
        wait(alloc, &mut table, *asker, *key)?;
    }
    Ok(table)
}

fn are(found: &[Arc<u32>], keys: &[u32]) -> bool {
    if found.len() != keys.len() {
        return false;
    }
    for i in 0..keys.len() {
        if *found[i] != keys[i] {
            return false;
        }
    }
    true
}

/// A wait, and the cycle that it would close, which has no keys if there is none.
type Row = (u32, u32, &'static [u32]);

/// Whether the wait would close this cycle.
fn closes(alloc: Global, table: &Table<u32, u64>, row: &Row) -> Result<bool, NoMemory> {
    let from = Arc::new(alloc, row.0)?;
    let to = Arc::new(alloc, row.1)?;
    Ok(match would_close(alloc, table, &from, &to)? {
        Some(path) => !row.2.is_empty() && are(path.keys(), row.2),
        None => row.2.is_empty(),
    })
}

/// 1 waits for 2, which waits for 3.
const CHAIN: [Row; 3] = [(3, 1, &[3, 1, 2]), (1, 3, &[]), (2, 2, &[2])];

#[test]
fn a_wait_closes_a_cycle_where_waits_lead_back(rt: HostRuntime) -> Result<(), Fail> {
    let table = waiting(rt.alloc(), &[(1, 2), (2, 3)])?;
    for row in &CHAIN {
        assert!(rt; closes(rt.alloc(), &table, row)?);
    }
    Ok(())
}

/// Both 1 and 2 wait for 4 first, which waits for none.
const BRANCHES: [Row; 2] = [(3, 1, &[3, 1, 2]), (5, 1, &[])];

#[test]
fn a_second_branch_is_searched(rt: HostRuntime) -> Result<(), Fail> {
    let table = waiting(rt.alloc(), &[(1, 4), (1, 2), (2, 4), (2, 3)])?;
    for row in &BRANCHES {
        assert!(rt; closes(rt.alloc(), &table, row)?);
    }
    Ok(())
}

/// A key, and how many tasks ask for it, directly or through others, with its own.
const ABOVE: [(u32, usize); 5] = [(4, 3), (3, 3), (2, 2), (1, 1), (5, 1)];

#[test]
fn who_asks_through_others_is_counted_once(rt: HostRuntime) -> Result<(), Fail> {
    let table = waiting(rt.alloc(), &[(1, 4), (1, 2), (2, 4), (2, 3)])?;
    for row in &ABOVE {
        let key = Arc::new(rt.alloc(), row.0)?;
        assert_eq!(rt; count_above(rt.alloc(), &table, &key)?, row.1);
    }
    Ok(())
}
