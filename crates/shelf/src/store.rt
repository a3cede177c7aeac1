//! One of the two copies of the shelf.
ghost use Rattle.std.specs.Prelude.{◌≡◌, [], IfOk, MatchResult};
ghost use Rattle.std.specs.Arc.{arc_value};
ghost use Rattle.std.specs.Option.{option_map};
ghost use Rattle.shelf.specs.Ops.{plain, row_at};
ghost use Rattle.shelf.specs.Rows.{IsNoNewRow, PutsRow};
ghost use Rattle.shelf.specs.Rule.{with_op};

use crate::op::{Plain, ShelfOp};
use crate::row::{RowKey, Rows, put_new, row_in};
use dice_key::Seed;
use indexmap::IndexMap;
use left_right::Absorb;
use std::alloc::{AllocError, Global};
use std::collections::LinkedList;
use std::hash::Hash;
use std::marker::Model;
use std::sync::Arc;

/// An operation that is no row of the map, and how many rows of the map stand before it.
#[derive(Drop)]
pub(crate) struct Aside<K: Drop, V: Drop> {
    pub(crate) after: usize,
    pub(crate) op: ShelfOp<K, V>,
}

/// The rows in a hash map, in the order in which they came. Beside it are the other operations: the
/// commits, and a row whose version and key had one before. Contracts see it as the list of all
/// operations in order.
#[derive(Drop)]
pub struct Store<K: Eq + Hash + Drop, V: Drop> {
    rows: Rows<K, V>,
    others: Vec<Aside<K, V>>,
}

impl<K: Eq + Hash + Drop, V: Drop> Model for Store<K, V> {
    ghost use Rattle.std.specs.Prelude.{List, length};
    ghost use Rattle.shelf.specs.Rows.{Agrees, InOrder, woven};
    ghost use Rattle.shelf.specs.declared.op.Plain.{Plain as Bare};

    ghost Value = { List (Bare K V) };

    ghost view = { λ s. woven 0 s.rows.entries s.others.items };

    ghost invariant = { λ s. Agrees K.eq s.rows.entries (woven 0 s.rows.entries s.others.items)
        × InOrder 0 (length s.rows.entries) s.others.items };
}

impl<K: Eq + Hash + Drop, V: Drop> Absorb<ShelfOp<K, V>> for Store<K, V> {
    ghost use Rattle.shelf.specs.Rule.{with_op};

    type State = LinkedList<Plain<K, V>>;

    ghost state = { λ s. s };

    ghost applied = { with_op };

    fn absorb_first(
        &mut self,
        operation: &ShelfOp<K, V>,
        _other: &Store<K, V>,
    ) -> Result<(), AllocError> {
        let ShelfOp::Row(version, key, value) = operation else {
            return self.set_aside(operation.again()?).map_err(|_op| AllocError);
        };
        match self.put_row(*version, Arc::try_clone(key)?, Arc::try_clone(value)?) {
            Ok(None) => Ok(()),
            Ok(Some(_)) => self.set_aside(operation.again()?).map_err(|_op| AllocError),
            Err(_) => Err(AllocError),
        }
    }

    fn absorb_second(
        &mut self,
        operation: ShelfOp<K, V>,
        _other: &Store<K, V>,
    ) -> Result<(), ShelfOp<K, V>> {
        let (version, key, value) = match operation.into_row() {
            Ok(row) => row,
            Err(changes) => return self.set_aside(ShelfOp::Commit(changes)),
        };
        let Ok(shared) = Arc::try_clone(&key) else {
            return Err(ShelfOp::Row(version, key, value));
        };
        match self.put_row(version, shared, value) {
            Ok(None) => Ok(()),
            Ok(Some(value)) => self.set_aside(ShelfOp::Row(version, key, value)),
            Err(value) => Err(ShelfOp::Row(version, key, value)),
        }
    }
}

impl<K: Eq + Hash + Drop, V: Drop> Store<K, V> {
    /// No operations. Rows are hashed by this seed.
    pub(crate) fn new(alloc: Global, seed: Seed) -> Store<K, V>
        ensures { result ≡ [] }
    {
        Store {
            rows: IndexMap::with_hasher(alloc, seed),
            others: Vec::new(alloc),
        }
    }

    // Puts a row in at the end, unless there is one of its version and key: then the value comes
    // back, as it does if there is no memory.
    fn put_row(
        &mut self,
        version: u64,
        key: Arc<K>,
        value: Arc<V>,
    ) -> Result<Option<Arc<V>>, Arc<V>>
        ensures { PutsRow K.eq version (arc_value key) value result self.old self.new }
    {
        put_new(&mut self.rows, RowKey { version, key }, value)
    }

    // Takes in an operation that is no new row, at the end. If there is no memory it comes back,
    // and nothing changes.
    fn set_aside(&mut self, op: ShelfOp<K, V>) -> Result<(), ShelfOp<K, V>>
        requires { IsNoNewRow K.eq self.old (plain op) }
        ensures { MatchResult result (λ _. self.new ≡ with_op self.old op)
            (λ back. (back ≡ op) × (self.new ≡ self.old)) }
    {
        let after = self.rows.len();
        match self.others.push(Aside { after, op }) {
            Ok(()) => Ok(()),
            Err(failed) => Err(failed.value.op),
        }
    }

    /// The value of the first row of that version and key, by one look-up in the hash map.
    pub(crate) fn row(&self, version: u64, key: &K) -> Option<&Arc<V>>
        ensures { option_map (λ x. arc_value x.now) result
            ≡ row_at (K.eq key.now) version self.now }
    {
        row_in(&self.rows, version, key)
    }
}
