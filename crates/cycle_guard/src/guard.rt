//! The search for a cycle.
ghost use Rattle.std.specs.Prelude.{◌≡◌, [], ◌∷◌, IfOk, IfSome, IfNone};
ghost use Rattle.std.specs.Arc.{arc_value};
ghost use Rattle.task_share.specs.Asked.{Leads};
ghost use Rattle.task_share.specs.Seen.{asked_of};
ghost use Rattle.task_share.specs.Numbers.{keys_of, names_at, IsPlaceOf};
ghost use Rattle.cycle_guard.specs.WaitCycle.{IsWaitCycle};

use dice_key::{NoMemory, Path};
use number_walk::{Waits, way};
use std::alloc::Global;
use std::hash::Hash;
use std::sync::Arc;
use task_share::{Table, table_in_order};

/// The cycle that would be closed if the task of `from` waited for that of `to`: a path exactly if
/// `to` leads to `from` by waits, or is `from`. It begins with `from`, then `to`; each key waits
/// for the next, and the last for the first.
///
/// Each key is looked up once, and each task that `to` leads to is passed at most once. If `to`
/// waits for nothing the answer takes no memory.
pub fn would_close<K: Eq + Hash + Drop, T: Drop>(
    alloc: Global,
    table: &Table<K, T>,
    from: &Arc<K>,
    to: &Arc<K>,
) -> Result<Option<Path<K>>, NoMemory>
    ensures path { IfOk result (λ o. IfSome o
        (λ p. IsWaitCycle (asked_of K.eq table.now) (arc_value from.now) (arc_value to.now) p)) }
    ensures some { IfOk result (λ o. IfSome o
        (λ p. Leads (asked_of K.eq table.now) (arc_value to.now) (arc_value from.now))) }
    ensures none { IfOk result (λ o. IfNone o
        (Leads (asked_of K.eq table.now) (arc_value to.now) (arc_value from.now) → ⊥)) }
{
    would_close_placed(alloc, table, from, to, table.number(to))
}

/// What `would_close` answers, if `to` was looked up before: it has this number in the table, or no
/// place there.
pub fn would_close_placed<K: Eq + Hash + Drop, T: Drop>(
    alloc: Global,
    table: &Table<K, T>,
    from: &Arc<K>,
    to: &Arc<K>,
    place: Option<usize>,
) -> Result<Option<Path<K>>, NoMemory>
    requires { IsPlaceOf K.eq table.now (arc_value to.now) place }
    ensures path { IfOk result (λ o. IfSome o
        (λ p. IsWaitCycle (asked_of K.eq table.now) (arc_value from.now) (arc_value to.now) p)) }
    ensures some { IfOk result (λ o. IfSome o
        (λ p. Leads (asked_of K.eq table.now) (arc_value to.now) (arc_value from.now))) }
    ensures none { IfOk result (λ o. IfNone o
        (Leads (asked_of K.eq table.now) (arc_value to.now) (arc_value from.now) → ⊥)) }
{
    table_in_order(table);
    if from == to {
        return Ok(Some(path_of(alloc, table, from, &[])?));
    }
    let Some(start) = place else {
        return Ok(None);
    };
    if table.waits_of(start).is_empty() {
        return Ok(None);
    }
    let Some(goal) = table.number(from) else {
        return Ok(None);
    };
    let Some(way) = way(alloc, table, start, goal)? else {
        return Ok(None);
    };
    Ok(Some(path_of(alloc, table, from, &way)?))
}

/// A key, and the keys of these numbers after it.
fn path_of<K: Eq + Hash + Drop, T: Drop>(
    alloc: Global,
    table: &Table<K, T>,
    first: &Arc<K>,
    rest: &[usize],
) -> Result<Path<K>, NoMemory>
    ensures { IfOk result (λ p. p ≡ arc_value first.now ∷ names_at (keys_of table.now) rest.now) }
{
    let mut keys = Vec::new(alloc);
    keys.push(Arc::try_clone(first)?)?;
    for number in rest {
        if let Some(key) = table.key(*number) {
            keys.push(Arc::try_clone(key)?)?;
        }
    }
    Ok(Path::from_keys(keys))
}
