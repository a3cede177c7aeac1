//! What is put on the shelf.
ghost use Rattle.std.specs.Prelude.{◌≡◌, IfOk, MatchResult};
ghost use Rattle.shelf.specs.Ops.{plain};
ghost use Rattle.shelf.specs.declared.op.ShelfOp.TheVariants.{Commit, Row};

use dice_key::NoMemory;
use std::alloc::AllocError;
use std::collections::LinkedList;
use std::sync::Arc;

/// An operation: a commit of changes, or a row, which is the value of a key at a version.
pub enum ShelfOp<K: Drop, V: Drop> {
    Commit(Arc<Vec<(Arc<K>, Arc<V>)>>),
    Row(u64, Arc<K>, Arc<V>),
}

/// An operation as plain data. It serves contracts alone: no value of it is made.
pub enum Plain<K, V> {
    Commit(LinkedList<(K, V)>),
    Row(u64, K, V),
}

impl<K: Drop, V: Drop> Drop for ShelfOp<K, V> {
    fn drop(self) {
        match self {
            ShelfOp::Commit(_changes) => {}
            ShelfOp::Row(_, _key, _value) => {}
        }
    }
}

impl<K: Drop, V: Drop> ShelfOp<K, V> {
    // What a row is made of, or the changes of a commit.
    pub(crate) fn into_row(self) -> Result<(u64, Arc<K>, Arc<V>), Arc<Vec<(Arc<K>, Arc<V>)>>>
        ensures { MatchResult result (λ row. self ≡ Row row.0 row.1 row.2)
            (λ changes. self ≡ Commit changes) }
    {
        match self {
            ShelfOp::Commit(changes) => Err(changes),
            ShelfOp::Row(version, key, value) => Ok((version, key, value)),
        }
    }

    // The same operation, which shares what it holds.
    pub(crate) fn again(&self) -> Result<ShelfOp<K, V>, AllocError>
        ensures { IfOk result (λ x. plain x ≡ plain self.now) }
    {
        match self {
            ShelfOp::Commit(changes) => Ok(ShelfOp::Commit(Arc::try_clone(changes)?)),
            ShelfOp::Row(version, key, value) => Ok(ShelfOp::Row(
                *version,
                Arc::try_clone(key)?,
                Arc::try_clone(value)?,
            )),
        }
    }
}
