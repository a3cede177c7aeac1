//! The events of a journal, copied out of it.
ghost use Rattle.std.specs.Prelude.{◌≡◌, IfOk};
ghost use Rattle.dice_model.specs.Log.{pair_of, pairs_of};
ghost use Rattle.journal.specs.Tell.{told, reason_of};
ghost use Rattle.dice_engine.specs.Lines.{AreEventsFrom};

use dice_key::{NoMemory, Universe};
use journal::{Cause, Changes, Event, Journal};
use std::alloc::Global;
use std::sync::Arc;

/// The events of a journal from this index on, in order. Keys and values are shared, not copied.
pub(crate) fn events_since<U: Universe>(
    alloc: Global,
    journal: &Journal<U>,
    start: usize,
) -> Result<Vec<Event<U::Key, U::Value>>, NoMemory>
    ensures { IfOk result (λ es. AreEventsFrom start journal.now.events es.items) }
{
    let count = journal.len();
    let mut events = Vec::new(alloc);
    for index in start..count {
        events.push(shared_event(alloc, journal.event(index))?)?;
    }
    Ok(events)
}

/// The event once more, with its keys and values shared.
fn shared_event<K: Drop, V: Drop>(
    alloc: Global,
    event: &Event<K, V>,
) -> Result<Event<K, V>, NoMemory>
    ensures { IfOk result (λ e. told e ≡ told event.now) }
{
    Ok(match event {
        Event::Commit(by, changes) => Event::Commit(*by, shared_changes(alloc, changes)?),
        Event::Open(by, version) => Event::Open(*by, *version),
        Event::Close(by, opened) => Event::Close(*by, *opened),
        Event::Ask(by, opened, key) => Event::Ask(*by, *opened, Arc::try_clone(key)?),
        Event::Leave(by, ask) => Event::Leave(*by, *ask),
        Event::Start(version, key, cause) => {
            Event::Start(*version, Arc::try_clone(key)?, shared_cause(cause)?)
        }
        Event::Keep(version, key, base) => Event::Keep(*version, Arc::try_clone(key)?, *base),
        Event::End(version, key) => Event::End(*version, Arc::try_clone(key)?),
        Event::Cyclic(version, key) => Event::Cyclic(*version, Arc::try_clone(key)?),
        Event::Drop(version, key) => Event::Drop(*version, Arc::try_clone(key)?),
        Event::Lost(version, key) => Event::Lost(*version, Arc::try_clone(key)?),
    })
}

/// The cause once more.
fn shared_cause<K: Drop>(cause: &Cause<K>) -> Result<Cause<K>, NoMemory>
    ensures { IfOk result (λ c. reason_of c ≡ reason_of cause.now) }
{
    Ok(match cause {
        Cause::New => Cause::New,
        Cause::Transient(base) => Cause::Transient(*base),
        Cause::Differs(base, key) => Cause::Differs(*base, Arc::try_clone(key)?),
    })
}

/// The changes once more, with their keys and values shared.
fn shared_changes<K: Drop, V: Drop>(
    alloc: Global,
    changes: &Changes<K, V>,
) -> Result<Changes<K, V>, NoMemory>
    ensures { IfOk result (λ c. c ≡ changes.now) }
{
    Ok(Changes::from_pairs(shared_pairs(alloc, changes)?))
}

/// The pairs of changes once more, with their keys and values shared.
pub(crate) fn shared_pairs<K: Drop, V: Drop>(
    alloc: Global,
    changes: &Changes<K, V>,
) -> Result<Vec<(Arc<K>, Arc<V>)>, NoMemory>
    ensures { IfOk result (λ v. pairs_of v.items ≡ changes.now) }
{
    let all = changes.pairs();
    let mut pairs = Vec::with_capacity(alloc, all.len())?;
    for pair in all {
        pairs.push(shared_pair(pair)?)?;
    }
    Ok(pairs)
}

/// The pair once more, with its key and value shared.
fn shared_pair<K: Drop, V: Drop>(pair: &(Arc<K>, Arc<V>)) -> Result<(Arc<K>, Arc<V>), NoMemory>
    ensures { IfOk result (λ p. pair_of p ≡ pair_of pair.now) }
{
    let (key, value) = pair;
    Ok((Arc::try_clone(key)?, Arc::try_clone(value)?))
}
