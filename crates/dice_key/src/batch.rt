//! Batches of keys and their answers.
ghost use Rattle.std.specs.Prelude.{◌≡◌, ◌<◌, ℕ, List, ◌++◌, ◌∷◌, [], length, map, IfOk, OnErr, OnOk};
ghost use Rattle.std.specs.Arc.{arc_value};

use crate::shared::Shared;
use crate::universe::NoMemory;
use std::alloc::Global;
use std::marker::Model;
use std::sync::Arc;

/// One or more keys that are asked together, in order. A key may stand twice.
#[derive(Drop)]
pub struct Batch<K> {
    keys: Shared<K>,
}

impl<K> Model for Batch<K> {
    ghost use Rattle.std.specs.Prelude.{◌<◌, List, length};
    ghost use Rattle.dice_key.specs.Shared.{values_of};

    ghost Value = { List K };

    ghost view = { λ b. values_of b.keys };

    ghost invariant = { λ b. 0 < length (values_of b.keys) };
}

impl<K> Batch<K> {
    /// A batch of one key. It takes no memory.
    pub fn one(alloc: Global, key: Arc<K>) -> Batch<K>
        ensures { result ≡ arc_value key ∷ [] }
    {
        Batch {
            keys: Shared::One(alloc, key),
        }
    }

    /// A batch of these keys, one or more. It takes no memory.
    pub fn from_keys(keys: Vec<Arc<K>>) -> Batch<K>
        requires { 0 < length keys.items }
        ensures { result ≡ map arc_value keys.items }
    {
        Batch {
            keys: Shared::Many(keys),
        }
    }

    /// Asks one more key. At an error the batch is as before.
    pub fn push(&mut self, key: Arc<K>) -> Result<(), NoMemory>
    where
        K: Drop,
        ensures ok { OnOk result (self.new ≡ self.old ++ arc_value key ∷ []) }
        ensures err { OnErr result (self.new ≡ self.old) }
    {
        self.keys.push(key)?;
        Ok(())
    }

    /// How many keys are asked.
    pub fn len(&self) -> usize
        ensures len { result ≡ length self.now }
        ensures some { 0 < result }
    {
        self.keys.as_slice().len()
    }

    /// The keys, in order.
    pub fn keys(&self) -> &[Arc<K>]
        ensures { map arc_value result.now ≡ self.now }
    {
        self.keys.as_slice()
    }
}

/// A value for each key of a batch, in its order.
#[derive(Drop)]
pub struct Answers<V> {
    values: Shared<V>,
}

impl<V> Model for Answers<V> {
    ghost use Rattle.std.specs.Prelude.{List};
    ghost use Rattle.dice_key.specs.Shared.{values_of};

    ghost Value = { List V };

    ghost view = { λ b. values_of b.values };
}

impl<V> Answers<V> {
    /// No answer yet. It takes no memory, and neither does the first one.
    pub fn new(alloc: Global) -> Answers<V>
        ensures { result ≡ [] }
    {
        Answers {
            values: Shared::None(alloc),
        }
    }

    /// No answer yet, and room for so many.
    pub fn with_room(alloc: Global, count: usize) -> Result<Answers<V>, NoMemory>
        ensures { IfOk result (λ a. a ≡ []) }
    {
        let values = Shared::with_room(alloc, count)?;
        Ok(Answers { values })
    }

    /// These answers. It takes no memory.
    pub fn from_values(values: Vec<Arc<V>>) -> Answers<V>
        ensures { result ≡ map arc_value values.items }
    {
        Answers {
            values: Shared::Many(values),
        }
    }

    /// Adds an answer. At an error the answers are as before.
    pub fn push(&mut self, value: Arc<V>) -> Result<(), NoMemory>
    where
        V: Drop,
        ensures ok { OnOk result (self.new ≡ self.old ++ arc_value value ∷ []) }
        ensures err { OnErr result (self.new ≡ self.old) }
    {
        self.values.push(value)?;
        Ok(())
    }

    /// How many answers there are.
    pub fn len(&self) -> usize
        ensures { result ≡ length self.now }
    {
        self.values.as_slice().len()
    }

    /// The same values again. They are shared, not copied.
    pub fn try_clone(&self, alloc: Global) -> Result<Answers<V>, NoMemory>
    where
        V: Drop,
        ensures { IfOk result (λ r. r ≡ self.now) }
    {
        let mut values = Shared::None(alloc);
        for value in self.values.as_slice() {
            values.push(Arc::try_clone(value)?)?;
        }
        Ok(Answers { values })
    }

    /// The values, in order.
    pub fn values(&self) -> &[Arc<V>]
        ensures { map arc_value result.now ≡ self.now }
    {
        self.values.as_slice()
    }
}

/// What a run does next: it asks a batch, or is done with a value.
#[derive(Drop)]
pub enum Move<K, V> {
    /// It asks these keys, and goes on when each of them is answered.
    Ask(Batch<K>),
    /// It is done: this is the value of its key.
    Done(Arc<V>),
}
