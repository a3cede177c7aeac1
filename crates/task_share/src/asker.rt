//! Who asks for a task.
ghost use Rattle.std.specs.Prelude.{◌≡◌, IfOk};
ghost use Rattle.std.specs.Arc.{arc_value};

use dice_key::NoMemory;
use std::marker::Model;
use std::sync::Arc;

/// Who asks for a task: a promise, by its number, or another task, by its key.
#[derive(Drop)]
pub enum Asker<K> {
    Promise(u64),
    Task(Arc<K>),
}

/// Those who ask for a key: the numbers of the promises and the keys of the tasks, each in no
/// order. The table's numbers of these keys are in the order of the keys.
#[derive(Drop)]
pub struct Askers<'a, K> {
    pub promises: &'a [u64],
    pub tasks: &'a [Arc<K>],
    pub numbers: &'a [usize],
}

/// One task's wait for another, with the pointers that the table keeps of it, so that it can be
/// added without memory.
#[derive(Drop)]
pub struct Wait<K> {
    key: Arc<K>,
    asker: Arc<K>,
}

impl<K> Model for Wait<K> {
    ghost use Rattle.std.specs.Prelude.{◌≡◌};
    ghost use Rattle.std.specs.Arc.{arc_value};
    ghost use Rattle.task_share.specs.Asked.{WaitOf};

    ghost Value = { WaitOf K };

    ghost view = { λ w. record { key = arc_value w.key; asker = arc_value w.asker } };
}

impl<K> Wait<K> {
    /// The wait of the task of `asker` for that of `key`.
    pub fn new(key: &Arc<K>, asker: &Arc<K>) -> Result<Wait<K>, NoMemory>
    where
        K: Drop,
        ensures { IfOk result
            (λ w. w ≡ record { key = arc_value key.now; asker = arc_value asker.now }) }
    {
        Ok(Wait {
            key: Arc::try_clone(key)?,
            asker: Arc::try_clone(asker)?,
        })
    }

    /// The key that is waited for, and the key of the waiting task.
    pub fn into_parts(self) -> (Arc<K>, Arc<K>)
        ensures { (arc_value result.0 ≡ self.key) × (arc_value result.1 ≡ self.asker) }
    {
        (self.key, self.asker)
    }
}
