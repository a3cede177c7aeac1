//! The changes of a commit.
ghost use Rattle.std.specs.Prelude.{◌≡◌};
ghost use Rattle.dice_model.specs.Log.{pairs_of};

use std::marker::Model;
use std::sync::Arc;

/// Pairs of a key and its new value, in order.
#[derive(Drop)]
pub struct Changes<K: Drop, V: Drop> {
    pairs: Vec<(Arc<K>, Arc<V>)>,
}

impl<K: Drop, V: Drop> Model for Changes<K, V> {
    ghost use Rattle.std.specs.Prelude.{List};
    ghost use Rattle.dice_model.specs.Log.{pairs_of};

    ghost Value = { List (K × V) };

    ghost view = { λ c. pairs_of c.pairs.items };
}

impl<K: Drop, V: Drop> Changes<K, V> {
    /// These changes. It takes no memory.
    pub fn from_pairs(pairs: Vec<(Arc<K>, Arc<V>)>) -> Changes<K, V>
        ensures { result ≡ pairs_of pairs.items }
    {
        Changes { pairs }
    }

    /// The changes, in order.
    pub fn pairs(&self) -> &[(Arc<K>, Arc<V>)]
        ensures { pairs_of result.now ≡ self.now }
    {
        self.pairs.as_slice()
    }
}
