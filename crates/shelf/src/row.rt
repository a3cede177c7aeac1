//! The rows of a copy in one hash map, by version and key.
ghost use Rattle.std.specs.Prelude.{◌≡◌, nat_eq, ◌&&◌, ◌++◌};
ghost use Rattle.std.specs.Arc.{arc_value};
ghost use Rattle.std.specs.Cmp.{unsigned_Decides, first_so, second_so};
ghost use Rattle.std.specs.Hash as fed;
ghost use Rattle.std.specs.Option.{option_map};
ghost use Rattle.shelf.specs.Rows.{PutsNew, row_of};

use dice_key::Seed;
use indexmap::map::Entry;
use indexmap::{Equivalent, IndexMap};
use std::hash::Hash;
use std::sync::Arc;

/// What a row is looked up by: its version and its key.
#[derive(PartialEq, Eq, Hash, Drop)]
pub(crate) struct RowKey<K> {
    pub(crate) version: u64,
    pub(crate) key: Arc<K>,
}

impl<K: Eq + Hash> Equivalent<RowKey<K>> for (u64, &K) {
    ghost equivalent = { λ q x. nat_eq q.0 x.version && K.eq q.1.now (arc_value x.key) };

    ghost respects_hash = { λ q x h i. fed.u64 ((unsigned_Decides q.0 x.version).0
        (first_so (nat_eq q.0 x.version) (K.eq q.1.now (arc_value x.key)) h) i)
        ++ K.respects_eq q.1.now (arc_value x.key)
        (second_so (nat_eq q.0 x.version) (K.eq q.1.now (arc_value x.key)) h) i };

    ghost respects_eq = { λ q x y h i. nat_eq ((unsigned_Decides q.0 x.version).0
        (first_so (nat_eq q.0 x.version) (K.eq q.1.now (arc_value x.key)) h) i) y.version
        && K.Eq.laws.congr q.1.now (arc_value x.key) (arc_value y.key)
        (second_so (nat_eq q.0 x.version) (K.eq q.1.now (arc_value x.key)) h) i };

    fn equivalent(&self, row: &RowKey<K>) -> bool {
        self.0 == row.version && *self.1 == *row.key
    }
}

pub(crate) type Rows<K, V> = IndexMap<RowKey<K>, Arc<V>, Seed>;

/// Puts a value to a key that has none, by one look-up. For a key that has one it comes back, as it
/// does if there is no memory.
pub(crate) fn put_new<Q: Eq + Hash + Drop, W: Drop>(
    map: &mut IndexMap<Q, W, Seed>,
    key: Q,
    value: W,
) -> Result<Option<W>, W>
    ensures { PutsNew Q.eq key value result map.old map.new }
{
    match map.entry(key) {
        Ok(Entry::Vacant(place)) => {
            place.insert(value);
            Ok(None)
        }
        Ok(Entry::Occupied(place)) => {
            // The entry stays as it is, and the proof has the map again.
            place.into_mut();
            Ok(Some(value))
        }
        Err(_) => Err(value),
    }
}

/// The value of the row of that version and key, by one look-up.
pub(crate) fn row_in<'a, K: Eq + Hash, V>(
    rows: &'a Rows<K, V>,
    version: u64,
    key: &K,
) -> Option<&'a Arc<V>>
    ensures { option_map (λ x. arc_value x.now) result ≡ row_of K.eq version key.now rows.now }
{
    rows.get((version, key))
}
