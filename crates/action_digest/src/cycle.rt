//! Cycles of keys as lists of labels.
ghost use Rattle.std.specs.Prelude.{◌≡◌, ◌<◌, ◌≤◌, ◌++◌, ℕ, List, [], length, map, take, drop, get_or, IfOk};
ghost use Rattle.std.specs.List.{AllByRecursion};
ghost use Rattle.std.specs.Arc.{arc_value};
ghost use Rattle.dice_model.specs.Asks.{IsCycle};
ghost use Rattle.action_digest.specs.Buck.{buck};
ghost use Rattle.action_digest.specs.Cycles.{keys_of, labels_of, IsAtMost, IsLabelCycle, ReachesFirst};
ghost use Rattle.action_digest.specs.declared.key.Key.{Key};
ghost use Rattle.action_digest.specs.declared.value.Value.{Value};

use crate::key::Key;
use crate::value::Value;
use buck_label::Label;
use dice_key::{NoMemory, Path};
use std::alloc::Global;
use std::sync::Arc;

/// The labels of a cycle of keys, in its order, beginning with the least by its printed bytes. Each
/// target asks for the next one's digest, and the last for the first one's. The path may begin with
/// any key of the cycle. It takes time linear in the path.
pub fn labels_of_cycle(alloc: Global, path: &Path<Key>) -> Result<Vec<Label>, NoMemory>
    ensures cycle { IfOk result (λ r. (C : List (List (Key × Value))) (v : ℕ)
        → IsCycle ⟦<Key as PartialEq>⟧.eq buck C v path.now → IsLabelCycle C v r.items) }
    ensures reached { IfOk result (λ r. (C : List (List (Key × Value))) (v : ℕ) (k : Key)
        → IsCycle ⟦<Key as PartialEq>⟧.eq buck C v path.now → ReachesFirst C v k path.now
        → ReachesFirst C v k (keys_of r.items)) }
{
    let mut labels = digest_labels(alloc, path.keys())?;
    let least = least_at(&labels);
    labels.rotate_left(least);
    Ok(labels)
}

/// The labels whose digests are among the keys, in order.
fn digest_labels(alloc: Global, keys: &[Arc<Key>]) -> Result<Vec<Label>, NoMemory>
    ensures { IfOk result (λ r. r.items ≡ labels_of (map arc_value keys.now)) }
{
    let mut labels = Vec::new(alloc);
    for key in keys {
        if let Key::Digest(label) = &**key {
            labels.push(label.try_clone()?)?;
        }
    }
    Ok(labels)
}

/// The place of the first label that is least; 0 if there is none.
fn least_at(labels: &[Label]) -> usize
    ensures within { result ≤ length labels.now }
    ensures below { 0 < length labels.now → result < length labels.now }
    ensures least { AllByRecursion (IsAtMost (get_or labels.now result [])) labels.now }
{
    let mut least = 0;
    for i in 0..labels.len() {
        if labels[i].cmp(&labels[least]).is_lt() {
            least = i;
        }
    }
    least
}
