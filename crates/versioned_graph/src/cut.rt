//! Cutting what a commit reaches.
ghost use Rattle.std.specs.Prelude.{◌≡◌, [], map, if◌then◌else◌};
ghost use Rattle.std.specs.Arc.{arc_value};
ghost use Rattle.std.specs.List.{list_any};
ghost use Rattle.versioned_graph.specs.Edges.{CutBy};
ghost use Rattle.versioned_graph.specs.Users.{users_of};

use crate::store::Store;
use crate::users::Users;
use dice_key::{Universe, laws_of};
use std::sync::Arc;

/// Cuts the tails of the entries of these keys at a version, takes away the edges to the keys, and
/// forgets the users of the keys. It takes no memory.
pub(crate) fn cut_reached<U: Universe>(
    store: &mut Store<U>,
    users: &mut Users<U>,
    keys: &[Arc<U::Key>],
    version: u64,
)
    ensures cut { CutBy U.Key.eq version (λ q. list_any (U.Key.eq q) (map arc_value keys.now))
        store.old store.new }
    ensures users { (j : U.Key)
        → users_of U.Key.eq users.new j
        ≡ (if list_any (U.Key.eq j) (map arc_value keys.now)
        then []
        else users_of U.Key.eq users.old j) }
{
    cut_all(store, keys, version);
    forget_all(users, keys);
}

/// Cuts the tails of the entries of these keys at a version, and takes away the edges to the keys.
/// It takes no memory.
fn cut_all<U: Universe>(store: &mut Store<U>, keys: &[Arc<U::Key>], version: u64)
    ensures { CutBy U.Key.eq version (λ q. list_any (U.Key.eq q) (map arc_value keys.now)) store.old
        store.new }
{
    laws_of::<U>();
    for key in keys {
        store.cut(key, version);
    }
}

/// Forgets the users of these keys. It takes no memory.
fn forget_all<U: Universe>(users: &mut Users<U>, keys: &[Arc<U::Key>])
    ensures { (j : U.Key)
        → users_of U.Key.eq users.new j
        ≡ (if list_any (U.Key.eq j) (map arc_value keys.now)
        then []
        else users_of U.Key.eq users.old j) }
{
    laws_of::<U>();
    for key in keys {
        users.forget(key);
    }
}
