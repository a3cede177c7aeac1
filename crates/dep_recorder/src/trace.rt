//! Traces: batches with their answers.
ghost use Rattle.std.specs.Prelude.{◌≡◌, ◌<◌, ◌≤◌, ◌+◌, ◌-◌, ◌^◌, ◌++◌, ◌∷◌, [], length, map, take, drop, OnOk, OnErr};
ghost use Rattle.std.specs.Arc.{arc_value};
ghost use Rattle.dep_recorder.specs.Recordings.{keys_in, values_in, answered_in, begins, RiseTo};

use dice_key::{Answers, Batch, NoMemory, Universe};
use smallvec::SmallVec;
use std::alloc::Global;
use std::marker::Model;
use std::sync::Arc;

/// Where each batch ends among the pairs. Two ends take no memory.
pub(crate) type Ends = SmallVec<usize, 2>;

/// Batches of keys with an answer to each, in the order in which a run asked them.
///
/// The pairs of all batches lie in one vector.
pub struct Trace<U: Universe> {
    pub(crate) pairs: Vec<(Arc<U::Key>, Arc<U::Value>)>,
    pub(crate) ends: Ends,
}

// (One function for all places that drop one: a derived drop is written out at each.)
impl<U: Universe> Drop for Trace<U> {
    fn drop(self) {
        let Trace {
            pairs: _pairs,
            ends: _ends,
        } = self;
    }
}

impl<U: Universe> Model for Trace<U> {
    ghost use Rattle.std.specs.Prelude.{List, length};
    ghost use Rattle.dice_key.specs.Meaning.{Answered};
    ghost use Rattle.dep_recorder.specs.Recordings.{keys_in, values_in, parted, RiseTo};

    ghost Value = { List (Answered U.Key U.Value) };

    ghost view = { λ t. parted (keys_in t.pairs.items) (values_in t.pairs.items) 0 t.ends.items };

    ghost invariant = { λ t. RiseTo 0 t.ends.items (length t.pairs.items) };
}

impl<U: Universe> Trace<U> {
    /// No batch.
    pub fn new(alloc: Global) -> Trace<U>
        ensures { result ≡ [] }
    {
        Trace {
            pairs: Vec::new(alloc),
            ends: Ends::new(alloc),
        }
    }

    /// How many batches there are.
    pub fn len(&self) -> usize
        ensures { result ≡ length self.now }
    {
        self.ends.len()
    }

    /// The batch at a place, counted from 0: its keys, each with its answer.
    pub fn batch(&self, at: usize) -> &[(Arc<U::Key>, Arc<U::Value>)]
        requires { at < length self.now }
        ensures batch { drop at self.now ≡ answered_in result.now ∷ drop (at + 1) self.now }
        ensures some { 0 < length result.now }
        ensures room { at + 1 < 2 ^ 64 }
    {
        part(&self.pairs, self.ends.as_slice(), at)
    }

    /// Adds a batch with its answers. At an error the trace is as before.
    pub(crate) fn push(
        &mut self,
        batch: &Batch<U::Key>,
        answers: &Answers<U::Value>,
    ) -> Result<(), NoMemory>
        requires { length answers.now ≡ length batch.now }
        ensures ok { OnOk result
            (self.new ≡ self.old ++ record { keys = batch.now; values = answers.now } ∷ []) }
        ensures err { OnErr result (self.new ≡ self.old) }
    {
        self.pairs.reserve(batch.len())?;
        self.ends.reserve(1)?;
        extend(&mut self.pairs, batch.keys(), answers.values())?;
        self.ends.push_reserved(self.pairs.len());
        Ok(())
    }
}

/// The part of a row between two ends.
fn part<'a, T>(items: &'a [T], ends: &[usize], at: usize) -> &'a [T]
    requires rise { RiseTo 0 ends.now (length items.now) }
    requires within { at < length ends.now }
    ensures part { result.now
        ≡ take (begins 0 ends.now (at + 1) - begins 0 ends.now at)
        (drop (begins 0 ends.now at) items.now) }
    ensures some { 0 < length result.now }
{
    let (start, end) = bounds(ends, at, items.len());
    &items[start..end]
}

/// Where part `at` begins and where it ends, of a row with `len` items.
fn bounds(ends: &[usize], at: usize, len: usize) -> (usize, usize)
    requires rise { RiseTo 0 ends.now len }
    requires within { at < length ends.now }
    ensures start { result.0 ≡ begins 0 ends.now at }
    ensures end { result.1 ≡ begins 0 ends.now (at + 1) }
    ensures some { result.0 < result.1 }
    ensures within { result.1 ≤ len }
{
    (start_of(ends, at), ends[at])
}

/// Where a batch begins: where the one before it ends.
fn start_of(ends: &[usize], at: usize) -> usize
    requires { at ≤ length ends.now }
    ensures { result ≡ begins 0 ends.now at }
{
    if at == 0 { 0 } else { ends[at - 1] }
}

/// Adds a pair of each key and its value. At an error the pairs are as before.
fn extend<K: Drop, V: Drop>(
    pairs: &mut Vec<(Arc<K>, Arc<V>)>,
    keys: &[Arc<K>],
    values: &[Arc<V>],
) -> Result<(), NoMemory>
    requires { length keys.now ≡ length values.now }
    ensures keys { OnOk result
        (keys_in pairs.new.items ≡ keys_in pairs.old.items ++ map arc_value keys.now) }
    ensures values { OnOk result
        (values_in pairs.new.items ≡ values_in pairs.old.items ++ map arc_value values.now) }
    ensures err { OnErr result (pairs.new.items ≡ pairs.old.items) }
{
    let before = pairs.len();
    for i in 0..keys.len() {
        if let Err(refused) = push_pair(pairs, &keys[i], &values[i]) {
            pairs.truncate(before);
            return Err(refused);
        }
    }
    Ok(())
}

/// Adds a pair. At an error the pairs are as before.
pub(crate) fn push_pair<K: Drop, V: Drop>(
    pairs: &mut Vec<(Arc<K>, Arc<V>)>,
    key: &Arc<K>,
    value: &Arc<V>,
) -> Result<(), NoMemory>
    ensures keys { OnOk result
        (keys_in pairs.new.items ≡ keys_in pairs.old.items ++ arc_value key.now ∷ []) }
    ensures values { OnOk result
        (values_in pairs.new.items ≡ values_in pairs.old.items ++ arc_value value.now ∷ []) }
    ensures front { OnOk result (take (length pairs.old.items) pairs.new.items ≡ pairs.old.items) }
    ensures err { OnErr result (pairs.new.items ≡ pairs.old.items) }
{
    pairs.push((Arc::try_clone(key)?, Arc::try_clone(value)?))?;
    Ok(())
}
