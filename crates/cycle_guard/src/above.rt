//! Who asks for a task, directly or through others.
ghost use Rattle.std.specs.Prelude.{◌≡◌, IfOk};
ghost use Rattle.std.specs.Arc.{arc_value};
ghost use Rattle.task_share.specs.Above.{AreCounted};
ghost use Rattle.task_share.specs.Seen.{asked_of};

use dice_key::NoMemory;
use number_walk::{Waits, all_from};
use std::alloc::Global;
use std::hash::Hash;
use std::sync::Arc;
use task_share::{Table, table_in_order};

/// A table as a walk from tasks to those that ask for them sees it.
#[derive(Drop)]
struct Upward<'a, K: Eq + Hash + Drop, T: Drop> {
    table: &'a Table<K, T>,
}

impl<'a, K: Eq + Hash + Drop, T: Drop> Waits for Upward<'a, K, T> {
    ghost use Rattle.std.specs.Prelude.{length};
    ghost use Rattle.task_share.specs.Above.{askers_by};

    ghost waits = { λ u n. askers_by K.eq u.table.now n };

    ghost count = { λ u. length u.table.now };

    fn waits_of(&self, number: usize) -> &[usize] {
        self.table.askers_of(number)
    }
}

/// How many tasks ask for that of a key, directly or through others, with its own.
///
/// Each of these is passed once, and each of their asks once.
pub fn count_above<K: Eq + Hash + Drop, T: Drop>(
    alloc: Global,
    table: &Table<K, T>,
    key: &Arc<K>,
) -> Result<usize, NoMemory>
    ensures { IfOk result (λ n. AreCounted (asked_of K.eq table.now) (arc_value key.now) n) }
{
    table_in_order(table);
    let Some(start) = table.number(key) else {
        return Ok(1);
    };
    let upward = Upward { table };
    let above = all_from(alloc, &upward, start)?;
    Ok(above.len())
}
