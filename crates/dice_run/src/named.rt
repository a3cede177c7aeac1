//! What a script names.
ghost use Rattle.std.specs.Prelude.{◌≡◌, ℕ, List, Some, None, OnOk, nat_eq, if◌then◌else◌};
ghost use Rattle.std.specs.HashMap.{get};
ghost use Rattle.std.specs.Cmp.Lexicographic.{pointwise};

use buck_label::Text;
use dice_key::{NoMemory, Seed};
use script::Name;
use std::alloc::Global;
use std::collections::HashMap;

/// Nothing has a name yet; names are hashed by this seed. There is room for so many names, if there is memory for it; otherwise it
/// is made as they come.
pub(crate) fn with_room<V: Drop>(alloc: Global, seed: Seed, count: usize) -> HashMap<Text, V, Seed>
    ensures { (q : List ℕ) → get (pointwise nat_eq) result q ≡ None }
{
    match HashMap::with_capacity_and_hasher(alloc, count, seed) {
        Ok(named) => named,
        Err(_) => HashMap::with_hasher(alloc, seed),
    }
}

/// Notes what has a name, in place of what had it.
pub(crate) fn note<V: Drop>(
    named: &mut HashMap<Text, V, Seed>,
    name: &Name,
    value: V,
) -> Result<(), NoMemory>
    ensures { OnOk result ((q : List ℕ)
        → get (pointwise nat_eq) named.new q
        ≡ (if pointwise nat_eq name.now q
        then Some value
        else get (pointwise nat_eq) named.old q)) }
{
    named.insert(name.as_text().try_clone()?, value)?;
    Ok(())
}

/// Takes out what has a name.
pub(crate) fn take<V: Drop>(named: &mut HashMap<Text, V, Seed>, name: &Name) -> Option<V>
    ensures value { result ≡ get (pointwise nat_eq) named.old name.now }
    ensures rest { (q : List ℕ)
        → get (pointwise nat_eq) named.new q
        ≡ (if pointwise nat_eq name.now q then None else get (pointwise nat_eq) named.old q) }
{
    named.remove(name.as_text())
}
