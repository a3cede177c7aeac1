//! Whether two traces are the same.
ghost use Rattle.std.specs.Prelude.{◌≡◌, ◌≢◌, ◌&&◌, true, false};
ghost use Rattle.std.specs.Arc.{arc_value};
ghost use Rattle.dep_recorder.specs.Recordings.{same_pairs};

use crate::trace::Trace;
use dice_key::{Universe, laws_of};
use std::sync::Arc;

impl<U: Universe> Trace<U> {
    /// Whether the two traces have the same batches with the same answers. It takes no memory.
    pub fn is_same(&self, other: &Trace<U>) -> bool
        ensures same { result ≡ true → self.now ≡ other.now }
        ensures differs { result ≡ false → self.now ≢ other.now }
    {
        laws_of::<U>();
        if self.len() != other.len() {
            return false;
        }
        for i in 0..self.len() {
            if !are_same(self.batch(i), other.batch(i)) {
                return false;
            }
        }
        true
    }
}

/// Whether two batches have the same keys and answers.
fn are_same<K: Eq, V: Eq>(a: &[(Arc<K>, Arc<V>)], b: &[(Arc<K>, Arc<V>)]) -> bool
    ensures { result ≡ same_pairs K.eq V.eq a.now b.now }
{
    if a.len() != b.len() {
        return false;
    }
    for i in 0..a.len() {
        if !is_same_pair(&a[i], &b[i]) {
            return false;
        }
    }
    true
}

fn is_same_pair<K: Eq, V: Eq>(a: &(Arc<K>, Arc<V>), b: &(Arc<K>, Arc<V>)) -> bool
    ensures { result
        ≡ (K.eq (arc_value a.now.0) (arc_value b.now.0)
        && V.eq (arc_value a.now.1) (arc_value b.now.1)) }
{
    *a.0 == *b.0 && *a.1 == *b.1
}
