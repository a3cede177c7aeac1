//! The keys of a cycle.
ghost use Rattle.std.specs.Prelude.{◌≡◌, ◌<◌, length, map};
ghost use Rattle.std.specs.Arc.{arc_value};

use std::marker::Model;
use std::sync::Arc;

/// The keys of a cycle in its order, one or more.
#[derive(Drop)]
pub struct Path<K> {
    keys: Vec<Arc<K>>,
}

impl<K> Model for Path<K> {
    ghost use Rattle.std.specs.Prelude.{◌<◌, List, length, map};
    ghost use Rattle.std.specs.Arc.{arc_value};

    ghost Value = { List K };

    ghost view = { λ p. map arc_value p.keys.items };

    ghost invariant = { λ p. 0 < length p.keys.items };
}

impl<K> Path<K> {
    /// The cycle of these keys. It takes no memory.
    pub fn from_keys(keys: Vec<Arc<K>>) -> Path<K>
        requires { 0 < length keys.items }
        ensures { result ≡ map arc_value keys.items }
    {
        Path { keys }
    }

    /// The keys, in order.
    pub fn keys(&self) -> &[Arc<K>]
        ensures keys { map arc_value result.now ≡ self.now }
        ensures some { 0 < length result.now }
    {
        self.keys.as_slice()
    }
}
