//! Moves made of keys and values.
ghost use Rattle.std.specs.Prelude.{◌≡◌, ◌<◌, [], ◌∷◌, length, IfOk};
ghost use Rattle.dice_key.specs.Meaning.{Asks, Ends};
ghost use Rattle.dice_key.specs.Lawful.{IsStep};

use dice_key::{Batch, Move, NoMemory};
use std::alloc::Global;
use std::sync::Arc;

/// The move that is done with a value.
pub fn done<K, V: Drop>(alloc: Global, value: V) -> Result<Move<K, V>, NoMemory>
    ensures { IfOk result (λ p. IsStep p (Ends value)) }
{
    Ok(Move::Done(Arc::new(alloc, value)?))
}

/// The move that asks one key.
pub fn ask<K: Drop, V>(alloc: Global, key: K) -> Result<Move<K, V>, NoMemory>
    ensures { IfOk result (λ p. IsStep p (Asks (key ∷ []))) }
{
    Ok(Move::Ask(Batch::one(alloc, Arc::new(alloc, key)?)))
}

/// The move that asks two keys together. They may be the same key.
pub fn ask_both<K: Drop, V>(alloc: Global, a: K, b: K) -> Result<Move<K, V>, NoMemory>
    ensures { IfOk result (λ p. IsStep p (Asks (a ∷ b ∷ []))) }
{
    let mut batch = Batch::one(alloc, Arc::new(alloc, a)?);
    batch.push(Arc::new(alloc, b)?)?;
    Ok(Move::Ask(batch))
}

/// The move that asks these keys together, one or more, in their order.
pub fn ask_all<K: Drop, V>(alloc: Global, keys: Vec<K>) -> Result<Move<K, V>, NoMemory>
    requires { 0 < length keys.items }
    ensures { IfOk result (λ p. IsStep p (Asks keys.items)) }
{
    let mut shared = Vec::with_capacity(alloc, keys.len())?;
    for key in keys {
        shared.push(Arc::new(alloc, key)?)?;
    }
    Ok(Move::Ask(Batch::from_keys(shared)))
}
