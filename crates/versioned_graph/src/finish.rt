//! Recording the edges of a finish.
ghost use Rattle.std.specs.Prelude.{◌≡◌, ◌&&◌, true, IfOk};
ghost use Rattle.std.specs.Arc.{arc_value};
ghost use Rattle.std.specs.List.{list_any};
ghost use Rattle.version_ranges.specs.Members.{is_open};
ghost use Rattle.versioned_graph.specs.Edges.{is_asked};
ghost use Rattle.versioned_graph.specs.Users.{users_of};
ghost use Rattle.lists.specs.Lists.{Has};

use crate::users::Users;
use dep_recorder::Trace;
use dice_key::{NoMemory, Universe, laws_of};
use small_set::SmallSet;
use std::alloc::Global;
use std::sync::Arc;
use version_ranges::Ranges;

/// If these ranges have no end, the keys of a trace, and the key becomes a user of each; otherwise
/// none.
pub(crate) fn link_open<U: Universe>(
    alloc: Global,
    ranges: &Ranges,
    users: &mut Users<U>,
    key: &Arc<U::Key>,
    trace: &Trace<U>,
) -> Result<SmallSet<Arc<U::Key>>, NoMemory>
    ensures keys { IfOk result (λ s. (q : U.Key)
        → list_any (λ a. U.Key.eq q (arc_value a)) s
        ≡ (is_open ranges.now && is_asked U.Key.eq trace.now q)) }
    ensures there { IfOk result (λ s. (j : U.Key)
        → list_any (λ a. U.Key.eq j (arc_value a)) s ≡ true
        → Has (users_of U.Key.eq users.new j) (arc_value key.now)) }
    ensures stay { (j : U.Key) (q : U.Key) → Has (users_of U.Key.eq users.old j) q
        → Has (users_of U.Key.eq users.new j) q }
{
    let opened = ranges.is_open();
    if opened {
        link(alloc, users, key, trace)
    } else {
        Ok(SmallSet::new(alloc, users.seed()))
    }
}

/// The keys of a trace; the key becomes a user of each.
fn link<U: Universe>(
    alloc: Global,
    users: &mut Users<U>,
    key: &Arc<U::Key>,
    trace: &Trace<U>,
) -> Result<SmallSet<Arc<U::Key>>, NoMemory>
    ensures keys { IfOk result (λ s. (q : U.Key)
        → list_any (λ a. U.Key.eq q (arc_value a)) s ≡ is_asked U.Key.eq trace.now q) }
    ensures there { IfOk result (λ s. (j : U.Key)
        → list_any (λ a. U.Key.eq j (arc_value a)) s ≡ true
        → Has (users_of U.Key.eq users.new j) (arc_value key.now)) }
    ensures stay { (j : U.Key) (q : U.Key) → Has (users_of U.Key.eq users.old j) q
        → Has (users_of U.Key.eq users.new j) q }
{
    laws_of::<U>();
    let mut deps = SmallSet::new(alloc, users.seed());
    for i in 0..trace.len() {
        for (dep, _) in trace.batch(i) {
            deps.insert(Arc::try_clone(dep)?)?;
            users.add(dep, key)?;
        }
    }
    Ok(deps)
}
