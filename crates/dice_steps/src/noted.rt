//! Keys that were seen.
ghost use Rattle.std.specs.Prelude.{◌≡◌, not, true, if◌then◌else◌, IfOk, OnOk};
ghost use Rattle.std.specs.Arc.{arc_value};
ghost use Rattle.std.specs.List.{list_any};

use dice_key::NoMemory;
use small_set::SmallSet;
use std::hash::Hash;
use std::sync::Arc;

/// Adds a key to those that were seen; whether it is new there.
pub fn note<K: Eq + Hash + Drop>(
    seen: &mut SmallSet<Arc<K>>,
    key: &Arc<K>,
) -> Result<bool, NoMemory>
    ensures added { IfOk result (λ is_new. is_new
        ≡ not (list_any (λ k. K.eq (arc_value key.now) (arc_value k)) seen.old)) }
    ensures seen { OnOk result ((q : K)
        → list_any (λ k. K.eq q (arc_value k)) seen.new
        ≡ (if K.eq (arc_value key.now) q
        then true
        else list_any (λ k. K.eq q (arc_value k)) seen.old)) }
{
    Ok(seen.insert(Arc::try_clone(key)?)?)
}
