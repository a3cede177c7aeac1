//! Traces with one more batch.
ghost use Rattle.std.specs.Prelude.{◌≡◌, ◌++◌, ◌∷◌, [], length, IfOk};
ghost use Rattle.dep_recorder.specs.Recordings.{keys_in, values_in};

use crate::trace::{Ends, Trace, push_pair};
use dice_key::{Answers, Batch, NoMemory, Universe};
use std::alloc::Global;
use std::sync::Arc;

impl<U: Universe> Trace<U> {
    /// The batches of this trace, and one more with its answers, one for each of its keys.
    ///
    /// Keys and values are shared, not copied; it costs their number.
    pub fn extended(
        &self,
        alloc: Global,
        batch: &Batch<U::Key>,
        answers: &Answers<U::Value>,
    ) -> Result<Trace<U>, NoMemory>
        requires { length answers.now ≡ length batch.now }
        ensures { IfOk result
            (λ t. t ≡ self.now ++ record { keys = batch.now; values = answers.now } ∷ []) }
    {
        let mut next = self.try_clone(alloc, batch.len())?;
        next.push(batch, answers)?;
        Ok(next)
    }

    /// The same batches again, with room for some more pairs.
    fn try_clone(&self, alloc: Global, more: usize) -> Result<Trace<U>, NoMemory>
        ensures { IfOk result (λ t. t ≡ self.now) }
    {
        let pairs = copied_pairs(&self.pairs, alloc, more)?;
        let ends = copied_ends(self.ends.as_slice(), alloc)?;
        Ok(Trace { pairs, ends })
    }
}

/// The same pairs again, shared, with room for some more.
fn copied_pairs<K: Drop, V: Drop>(
    from: &[(Arc<K>, Arc<V>)],
    alloc: Global,
    more: usize,
) -> Result<Vec<(Arc<K>, Arc<V>)>, NoMemory>
    ensures keys { IfOk result (λ ps. keys_in ps.items ≡ keys_in from.now) }
    ensures values { IfOk result (λ ps. values_in ps.items ≡ values_in from.now) }
{
    let mut pairs = Vec::with_capacity(alloc, from.len().saturating_add(more))?;
    copy_pairs(&mut pairs, from)?;
    Ok(pairs)
}

/// The same ends again, with room for one more.
fn copied_ends(from: &[usize], alloc: Global) -> Result<Ends, NoMemory>
    ensures { IfOk result (λ es. es.items ≡ from.now) }
{
    let mut ends = Ends::with_capacity(alloc, from.len().saturating_add(1))?;
    ends.extend_from_slice(from)?;
    Ok(ends)
}

/// Adds the same pairs again, shared.
fn copy_pairs<K: Drop, V: Drop>(
    pairs: &mut Vec<(Arc<K>, Arc<V>)>,
    from: &[(Arc<K>, Arc<V>)],
) -> Result<(), NoMemory>
    ensures keys { IfOk result
        (λ _. keys_in pairs.new.items ≡ keys_in pairs.old.items ++ keys_in from.now) }
    ensures values { IfOk result
        (λ _. values_in pairs.new.items ≡ values_in pairs.old.items ++ values_in from.now) }
{
    for (key, value) in from {
        push_pair(pairs, key, value)?;
    }
    Ok(())
}
