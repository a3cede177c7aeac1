//! Checks that go on without a comparison, since the answer to the key that they ask is known to be
//! as it was.
ghost use Rattle.std.specs.Prelude.{◌≡◌, true, Some, IfSome};
ghost use Rattle.std.specs.Arc.{arc_value};
ghost use Rattle.std.specs.Option.{option_copied};
ghost use Rattle.versioned_graph.specs.Entries.{Stored, kept_of};
ghost use Rattle.dice_steps.specs.Agreements.{ChecksOne, HoldsAtBase, HoldsAtBoth};

use crate::shared::Shared;
use dice_jobs::Assignment;
use dice_key::{Batch, KeyRef, Kind, Universe};
use versioned_graph::{Entry, Graph};

/// The key that a check asks, and the check's base. `None` if the job is no check, or its batch has
/// more keys.
fn asked_alone<'a, U: Universe>(
    assignment: &Assignment<U>,
    batch: &'a Batch<U::Key>,
) -> Option<(&'a KeyRef<U>, u64)>
    ensures { IfSome result (λ r. ChecksOne assignment.now batch.now (arc_value r.0.now) r.1) }
{
    let earlier = assignment.earlier()?;
    match batch.keys() {
        [key] => Some((key, earlier.base)),
        _ => None,
    }
}

/// Whether a check asks one key, whose entry holds at the version and at the check's base.
pub(crate) fn holds_at_both<U: Universe>(
    shared: &Shared<U>,
    version: u64,
    assignment: &Assignment<U>,
    batch: &Batch<U::Key>,
) -> bool
    ensures { result ≡ true
        → HoldsAtBoth U.Key.eq shared.now.graph version assignment.now batch.now }
{
    let Some((key, base)) = asked_alone::<U>(assignment, batch) else {
        return false;
    };
    if let Kind::Injected = shared.universe.kind(key) {
        return false;
    }
    match shared.graph.entry(key) {
        Some(entry) => entry.holds_at(version) && entry.holds_at(base),
        None => false,
    }
}

/// Whether a check asks one key, and an entry, if there is one, holds at the check's base.
pub(crate) fn holds_at_base<U: Universe>(
    kept: Option<&Entry<U>>,
    assignment: &Assignment<U>,
    batch: &Batch<U::Key>,
) -> bool
    ensures { result ≡ true → (e : Stored U.Key U.Value) × (option_copied kept.entry ≡ Some e)
        × HoldsAtBase (kept_of e) assignment.now batch.now }
{
    let Some(entry) = kept else {
        return false;
    };
    match asked_alone::<U>(assignment, batch) {
        Some((_, base)) => entry.holds_at(base),
        None => false,
    }
}
