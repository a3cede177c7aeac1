//! The owners of a cycle's path.
ghost use Rattle.std.specs.Prelude.{◌≡◌, ◌<◌, ◌+◌, IfOk};
ghost use Rattle.std.specs.Arc.{arc_value};

use dice_key::{NoMemory, Path};
use std::alloc::Global;
use std::marker::Model;
use std::sync::Arc;

/// A cycle's path, and so many owners of it to be given away, each to a task that ends with it.
#[derive(Drop)]
pub struct Owners<K> {
    path: Arc<Path<K>>,
    more: Vec<Arc<Path<K>>>,
}

impl<K> Model for Owners<K> {
    ghost use Rattle.std.specs.Prelude.{length, map};
    ghost use Rattle.std.specs.Arc.{arc_value};
    ghost use Rattle.dice_tasks.specs.Owned.{Owned, AreAllOf};

    ghost Value = { Owned K };

    ghost view = { λ o. record { path = arc_value o.path; count = length o.more.items } };

    ghost invariant = { λ o. AreAllOf (arc_value o.path) (map arc_value o.more.items) };
}

impl<K: Drop> Owners<K> {
    /// So many owners of this path.
    pub fn new(alloc: Global, path: Arc<Path<K>>, count: usize) -> Result<Owners<K>, NoMemory>
        ensures { IfOk result (λ o. o ≡ record { path = arc_value path; count = count }) }
    {
        let mut more = Vec::with_capacity(alloc, count)?;
        for _ in 0..count {
            more.push(Arc::try_clone(&path)?)?;
        }
        Ok(Owners { path, more })
    }

    /// Gives one away. It takes no memory.
    pub(crate) fn give(&mut self) -> Arc<Path<K>>
        requires { 0 < self.old.count }
        ensures given { arc_value result ≡ self.old.path }
        ensures path { self.new.path ≡ self.old.path }
        ensures count { self.old.count ≡ self.new.count + 1 }
    {
        let Some(path) = self.more.pop() else {
            unreachable!();
        };
        path
    }
}
